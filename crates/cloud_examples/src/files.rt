//! Cloud files from outside, and the texts of their clouds.
use crate::fixtures::sized;
use cloud_file::{CloudFileFault, read, text};
use heat_plan::{Kind, Properties, Token};
use heat_value::Text;
use provider::{Answer, Provider};
use sample_plans::boxes;
use sim_cloud::SimCloud;
use std::alloc::{AllocError, Global};
use std::test::Fail;

// The fields of a resource but its properties and its token.
const FRONT: &str =
    r#"{"attrs":{"addr":"x"},"id":"i","kind":"K","leaving":true,"left":64,"ready":true,"#;

// How many resources, quotas, delays, codes, faults and late calls a cloud has.
fn counted(alloc: Global, cloud: &SimCloud) -> Result<String, AllocError> {
    let conduct = cloud.conduct();
    format!(in alloc;
        "{} {} {} {} {} {}",
        cloud.inventory().held.all.len(),
        cloud.inventory().quotas.len(),
        conduct.delays.len(),
        conduct.broken.len(),
        conduct.faults.len(),
        conduct.late.len()
    )
}

// What a file is read as: how many of each, or its fault.
fn said(alloc: Global, bytes: &[u8]) -> Result<String, AllocError> {
    match read(alloc, bytes) {
        Ok(cloud) => counted(alloc, &cloud),
        Err(CloudFileFault::NotJson) => format!(in alloc; "no json"),
        Err(CloudFileFault::Shape(path)) => format!(in alloc; "{}", path.text(alloc)?.as_str()),
        Err(CloudFileFault::Memory) => Err(AllocError),
    }
}

fn is(alloc: Global, bytes: &[u8], wanted: &str) -> Result<bool, Fail> {
    Ok(said(alloc, bytes)?.as_str() == wanted)
}

// Whether a file of these parts of a list of resources is read so.
fn lists(alloc: Global, parts: &[&str], wanted: &str) -> Result<bool, Fail> {
    let mut text = String::new(alloc);
    text.push_str(r#"{"alive":["#)?;
    for part in parts {
        text.push_str(part)?;
    }
    text.push_str("]}")?;
    is(alloc, text.as_bytes(), wanted)
}

// Whether a resource whose properties nest so deep is read so.
fn nests(alloc: Global, lists: usize, wanted: &str) -> Result<bool, Fail> {
    let mut text = String::new(alloc);
    text.push_str(r#"{"alive":["#)?;
    text.push_str(FRONT)?;
    text.push_str(r#""token":"s/a/1","props":{"a":"#)?;
    for _ in 0..lists {
        text.push_str("[")?;
    }
    for _ in 0..lists {
        text.push_str("]")?;
    }
    text.push_str("}}]}")?;
    is(alloc, text.as_bytes(), wanted)
}

#[test]
fn right_files_are_read(rt: HostRuntime) -> Result<(), Fail> {
    let alloc = rt.alloc();
    assert!(rt; is(alloc, b"{}", "0 0 0 0 0 0")?);
    let all = br#"{"quotas":{"A::B":0,"C":1000000},"delays":{"C":64},"broken":{"a":"no_image_2"},
        "faults":[2,9223372036854775807,2],"late":[1],"alive":[]}"#;
    assert!(rt; is(alloc, all, "0 2 1 1 3 1")?);
    let one = r#""props":{},"token":"s/a/1"}"#;
    assert!(rt; lists(alloc, &[FRONT, one], "1 0 0 0 0 0")?);
    let other = r#""props":{},"token":"s/a/2"}"#;
    assert!(rt; lists(alloc, &[FRONT, one, ",", FRONT, other], "2 0 0 0 0 0")?);
    assert!(rt; nests(alloc, 63, "1 0 0 0 0 0")?);
    Ok(())
}

#[test]
fn wrong_parts_are_refused(rt: HostRuntime) -> Result<(), Fail> {
    let alloc = rt.alloc();
    let cases: [(&[u8], &str); 20] = [
        (b"", "no json"),
        (b"{", "no json"),
        (b"[]", "[]"),
        (br#"{"late":5,"alive":{}}"#, r#"["alive"]"#),
        (br#"{"zone":1}"#, r#"["zone"]"#),
        (br#"{"quotas":{"K":1000001}}"#, r#"["quotas","K"]"#),
        (br#"{"quotas":{"K":-1}}"#, r#"["quotas","K"]"#),
        (br#"{"quotas":{"":1}}"#, r#"["quotas",""]"#),
        (br#"{"quotas":{"a b":1}}"#, r#"["quotas","a b"]"#),
        (br#"{"quotas":[]}"#, r#"["quotas"]"#),
        (br#"{"delays":{"K":65}}"#, r#"["delays","K"]"#),
        (br#"{"broken":{"a":"A"}}"#, r#"["broken","a"]"#),
        (br#"{"broken":{"a":""}}"#, r#"["broken","a"]"#),
        (
            br#"{"broken":{"a":"123456789012345678901234567890123"}}"#,
            r#"["broken","a"]"#,
        ),
        (br#"{"broken":{"a:b":"x"}}"#, r#"["broken","a:b"]"#),
        (br#"{"faults":[1,0]}"#, r#"["faults",1]"#),
        (br#"{"faults":null}"#, r#"["faults"]"#),
        (br#"{"late":[9223372036854775808]}"#, r#"["late",0]"#),
        (br#"{"late":[1.0]}"#, r#"["late",0]"#),
        (br#"{"alive":[1]}"#, r#"["alive",0]"#),
    ];
    for (bytes, wanted) in cases {
        assert!(rt; is(alloc, bytes, wanted)?);
    }
    Ok(())
}

#[test]
fn wrong_resources_are_refused(rt: HostRuntime) -> Result<(), Fail> {
    let alloc = rt.alloc();
    let one = r#""props":{},"token":"s/a/1"}"#;
    let cases: [(&str, &str); 9] = [
        (r#""props":{}}"#, r#"["alive",0]"#),
        (r#""token":"s/a/1"}"#, r#"["alive",0]"#),
        (r#""props":{},"zone":1}"#, r#"["alive",0,"zone"]"#),
        (r#""props":[],"zone":1}"#, r#"["alive",0,"props"]"#),
        (
            r#""props":{"a":[1,2.5]},"token":"s/a/1"}"#,
            r#"["alive",0,"props","a",1]"#,
        ),
        (r#""props":{},"token":"s/a/01"}"#, r#"["alive",0,"token"]"#),
        (r#""props":{},"token":1}"#, r#"["alive",0,"token"]"#),
        (r#""left":65,"token":"s"}"#, r#"["alive",0,"left"]"#),
        (r#""leaving":0,"kind":1}"#, r#"["alive",0,"kind"]"#),
    ];
    for (rest, wanted) in cases {
        assert!(rt; lists(alloc, &[FRONT, rest], wanted)?);
    }
    assert!(rt;
        lists(
            alloc,
            &[FRONT, one, ",", FRONT, one],
            r#"["alive",1,"token"]"#
        )?
    );
    assert!(rt; nests(alloc, 64, r#"["alive",0,"props"]"#)?);
    Ok(())
}

// Whether the cloud of this file is written so.
fn is_written(alloc: Global, file: &str, wanted: &str) -> Result<bool, AllocError> {
    match read(alloc, file.as_bytes()) {
        Ok(cloud) => Ok(text(alloc, &cloud)?.as_str() == wanted),
        Err(_) => Ok(false),
    }
}

// Files, and how their clouds are written.
const WRITTEN: &[(&str, &str)] = &[
    ("{}", r#"{"alive":[],"broken":{},"delays":{},"quotas":{}}"#),
    (
        r#"{"quotas":{"K":2,"A":0},"late":[3],"faults":[1],"delays":{"K":1},"broken":{"b":"x","a":"y"}}"#,
        r#"{"alive":[],"broken":{"a":"y","b":"x"},"delays":{"K":1},"quotas":{"A":0,"K":2}}"#,
    ),
    (
        "{\"alive\":[{\"token\":\"s/a/2\",\"ready\":true,\"props\":{\"b\":[1,null],\"a\":{}},\
        \"left\":3,\"leaving\":true,\"kind\":\"K\",\"id\":\"\\u0069\",\"attrs\":{\"x\":\"y\"}}]}",
        "{\"alive\":[{\"attrs\":{\"x\":\"y\"},\"id\":\"i\",\"kind\":\"K\",\"leaving\":true,\
        \"left\":3,\"props\":{\"a\":{},\"b\":[1,null]},\"ready\":true,\"token\":\"s/a/2\"}],\
        \"broken\":{},\"delays\":{},\"quotas\":{}}",
    ),
];

#[test]
fn clouds_are_written_whole(rt: HostRuntime) -> Result<(), Fail> {
    for (file, wanted) in WRITTEN {
        assert!(rt; is_written(rt.alloc(), file, wanted)?, "{}", file);
    }
    Ok(())
}

// Creates, which is begun of what is alive, and updates to this size.
fn update(cloud: &mut SimCloud, token: &Token, kind: &Kind, props: &Properties) -> bool {
    match cloud.create(token, kind, props) {
        Answer::Begun => cloud.update(token, props) == Answer::Begun,
        _ => false,
    }
}

// A file with one resource, and how it is written once it was asked for this size.
const HELD: &str =
    "{\"alive\":[{\"attrs\":{\"size\":\"of the file\"},\"id\":\"i\",\"kind\":\"Test::Box\",\
    \"leaving\":false,\"left\":0,\"props\":{\"size\":1},\"ready\":true,\"token\":\"s/a/7\"}]}";

fn asked(alloc: Global, size: i64) -> Result<Text, Fail> {
    let token = Token::read(alloc, b"s/a/7")?.ok_or("a token")?;
    let kind = boxes(alloc, &[], &[])?;
    let props = sized(alloc, size)?;
    Ok(text_behind(alloc, &token, &kind, &props)?)
}

fn text_behind(
    alloc: Global,
    token: &Token,
    kind: &Kind,
    props: &Properties,
) -> Result<Text, AllocError> {
    match read(alloc, HELD.as_bytes()) {
        Ok(mut cloud) => {
            let _begun = update(&mut cloud, token, kind, props);
            text(alloc, &cloud)
        }
        Err(_) => Text::from_str(alloc, "no cloud file"),
    }
}

const KEPT: &str =
    "{\"alive\":[{\"attrs\":{\"size\":\"of the file\"},\"id\":\"i\",\"kind\":\"Test::Box\",\
    \"leaving\":false,\"left\":0,\"props\":{\"size\":1},\"ready\":true,\"token\":\"s/a/7\"}],\
    \"broken\":{},\"delays\":{},\"quotas\":{}}";

const ANEW: &str =
    "{\"alive\":[{\"attrs\":{\"size\":2},\"id\":\"i\",\"kind\":\"Test::Box\",\"leaving\":false,\
    \"left\":0,\"props\":{\"size\":2},\"ready\":false,\"token\":\"s/a/7\"}],\"broken\":{},\
    \"delays\":{},\"quotas\":{}}";

#[test]
fn the_files_attributes_stay_until_other_properties(rt: HostRuntime) -> Result<(), Fail> {
    assert_eq!(rt; asked(rt.alloc(), 1)?.as_str(), KEPT);
    assert_eq!(rt; asked(rt.alloc(), 2)?.as_str(), ANEW);
    Ok(())
}
