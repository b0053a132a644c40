//! Servers of about a kilobyte each, of ten functions each, which need one another; some are wanted by a condition.

use crate::templates::conditions::COUNT;
use anyhow::Result;
use std::alloc::Global;

// What is put into the servers, with two keys that are replaced.
const SETUP: &str = "#!/bin/sh\\necho $IP $NAME >> /etc/hosts\\napt install -y nginx\\n\
    systemctl enable nginx\\nsystemctl start nginx\\ncurl -s http://$IP/health || exit 1\\n\
    mkdir -p /srv/www /var/log/www\\nchown -R www-data /srv/www /var/log/www\\n\
    sed -i s/NAME/$NAME/ /etc/nginx/sites\\n";

const DEVICES: &str = "\"block_device_mapping\":[\
    {\"boot_index\":0,\"delete_on_termination\":true,\"volume_size\":20},\
    {\"boot_index\":1,\"delete_on_termination\":false,\"volume_size\":42}],";

const GROUPS: &str =
    "\"key_name\":{\"get_param\":\"p00\"},\"security_groups\":[\"default\",\"http\"],";

/// The kind of the resources, as a catalogue.
pub const KINDS: &str = "{\"OS::Nova::Server\":{\"attributes\":[\"first_address\",\"name\"],\
    \"properties\":{\"block_device_mapping\":{},\"config_drive\":{},\"flavor\":{\"required\":true},\
    \"image\":{\"required\":true},\"key_name\":{},\"name\":{},\"networks\":{},\
    \"scheduler_hints\":{},\"security_groups\":{},\"user_data\":{}}}}";

/// Puts so many resources behind the text, `r0000` and on; each but the first names four before it.
pub fn push_resources(alloc: Global, text: &mut String, size: u32) -> Result<()> {
    for i in 0..size {
        if 0 < i {
            text.push_str(",")?;
        }
        push_resource(alloc, text, i)?;
    }
    Ok(())
}

fn push_resource(alloc: Global, text: &mut String, i: u32) -> Result<()> {
    text.push_str(format!(in alloc; "\"r{i:04}\":{{")?.as_str())?;
    push_terms(alloc, text, i)?;
    text.push_str("\"metadata\":{\"owner\":\"web\",\"tier\":1},\"properties\":{")?;
    push_properties(alloc, text, i)?;
    text.push_str("},\"type\":\"OS::Nova::Server\"}")?;
    Ok(())
}

// Every fourth server has a condition, and each but the first depends on the one before it.
fn push_terms(alloc: Global, text: &mut String, i: u32) -> Result<()> {
    if i % 4 == 1 {
        let condition = i / 4 % COUNT;
        text.push_str(format!(in alloc; "\"condition\":\"c{condition:02}\",")?.as_str())?;
    }
    if 0 < i {
        let before = i - 1;
        text.push_str(format!(in alloc; "\"depends_on\":[\"r{before:04}\"],")?.as_str())?;
    }
    Ok(())
}

fn push_properties(alloc: Global, text: &mut String, i: u32) -> Result<()> {
    text.push_str(DEVICES)?;
    push_sizes(alloc, text, i)?;
    text.push_str(GROUPS)?;
    push_name(alloc, text, i)?;
    push_networks(alloc, text, i)?;
    push_hints(alloc, text, i)?;
    push_setup(alloc, text, i)
}

// A condition and two parameters.
fn push_sizes(alloc: Global, text: &mut String, i: u32) -> Result<()> {
    let (condition, flavor, image) = (i % COUNT, i % 20 * 5 + 4, i % 20 * 5);
    text.push_str(format!(in alloc;
        "\"config_drive\":{{\"if\":[\"c{condition:02}\",true,{{\"get_param\":\"p02\"}}]}},"
    )?.as_str())?;
    text.push_str(format!(in alloc;
        "\"flavor\":{{\"get_param\":[\"p{flavor:02}\",0]}},\"image\":{{\"get_param\":\"p{image:02}\"}},"
    )?.as_str())?;
    Ok(())
}

fn push_name(alloc: Global, text: &mut String, i: u32) -> Result<()> {
    text.push_str(format!(in alloc;
        "\"name\":{{\"list_join\":[\"-\",[\"web\",\"{i:04}\",\"prod\"]]}},"
    )?.as_str())?;
    Ok(())
}

fn push_networks(alloc: Global, text: &mut String, i: u32) -> Result<()> {
    text.push_str("\"networks\":[{\"port\":")?;
    push_resource_of(alloc, text, i, i / 2)?;
    text.push_str(",\"tags\":[\"a\",\"b\",\"c\"]},{\"port\":2,\"tags\":[]}],")?;
    Ok(())
}

fn push_hints(alloc: Global, text: &mut String, i: u32) -> Result<()> {
    text.push_str("\"scheduler_hints\":{\"different_host\":[")?;
    push_resource_of(alloc, text, i, i / 3)?;
    text.push_str("],\"group\":\"web\"},")?;
    Ok(())
}

fn push_setup(alloc: Global, text: &mut String, i: u32) -> Result<()> {
    text.push_str("\"user_data\":{\"str_replace\":{\"params\":{\"$IP\":")?;
    push_address_of(alloc, text, i, i / 5 * 4)?;
    text.push_str(",\"$NAME\":\"web\"},\"template\":\"")?;
    text.push_str(SETUP)?;
    text.push_str("\"}}")?;
    Ok(())
}

// The identity of a server before this one; the first server reads a parameter.
fn push_resource_of(alloc: Global, text: &mut String, i: u32, before: u32) -> Result<()> {
    if i == 0 {
        text.push_str("{\"get_param\":\"p00\"}")?;
        return Ok(());
    }
    text.push_str(format!(in alloc; "{{\"get_resource\":\"r{before:04}\"}}")?.as_str())?;
    Ok(())
}

// The address of a server before this one; the first server reads a parameter.
fn push_address_of(alloc: Global, text: &mut String, i: u32, before: u32) -> Result<()> {
    if i == 0 {
        text.push_str("{\"get_param\":\"p00\"}")?;
        return Ok(());
    }
    text.push_str(format!(in alloc;
        "{{\"get_attr\":[\"r{before:04}\",\"first_address\"]}}"
    )?.as_str())?;
    Ok(())
}
