//! The folder behind whole scripts, behind a write that fails, and where its files say no resource.
use crate::drive;
use crate::folder::Folder;
use crate::load_fault::LoadFault;
use crate::loading::load;
use heat_io::{MemSink, MemSource};
use heat_value::Text;
use std::alloc::AllocError;
use std::fs;
use std::test::Fail;

// A create and an update of the stack `s` with one resource.
const CREATE: &str = "create s {\"template\":{\"heat_template_version\":\"2018-08-31\",\
    \"resources\":{\"a\":{\"type\":\"Test::Box\",\"properties\":{\"size\":1}}}}}\n";

const UPDATE: &str = "update s {\"template\":{\"heat_template_version\":\"2018-08-31\",\
    \"resources\":{\"a\":{\"type\":\"Test::Box\",\"properties\":{\"size\":2}}}}}\n";

// The folder of this path.
fn folder_at(rt: &HostRuntime, path: &str) -> Result<Folder, AllocError> {
    let path = Text::from_str(rt.alloc(), path)?;
    Ok(Folder { rt: *rt, path })
}

// Makes a folder that is empty.
fn clear(rt: &HostRuntime, path: &str) -> Result<(), Fail> {
    let _ = fs::remove_dir_all(rt, path);
    fs::create_dir(rt, path)?;
    Ok(())
}

// The status of a drive of a folder by a script; 12 where the folder isn't read.
fn driven(
    rt: &HostRuntime,
    path: &str,
    script: &str,
    sink: &mut MemSink,
) -> Result<u8, AllocError> {
    let mut source = MemSource::new(rt.alloc(), script.as_bytes(), 4096, &[])?;
    match load(folder_at(rt, path)?) {
        Ok(cloud) => Ok(drive(rt.alloc(), &mut source, sink, cloud)?.code()),
        Err(LoadFault::At(_, _)) => Ok(12),
        Err(LoadFault::Memory) => Err(AllocError),
    }
}

// The status of a drive of an empty folder by a script in parts, and whether its report has this word.
fn tells(rt: &HostRuntime, path: &str, parts: &[&str], word: &str) -> Result<(u8, bool), Fail> {
    let mut script = String::new(rt.alloc());
    for part in parts {
        script.push_str(part)?;
    }
    clear(rt, path)?;
    let mut sink = MemSink::new(rt.alloc(), 4096, &[])?;
    let status = driven(rt, path, script.as_str(), &mut sink)?;
    let report = str::from_utf8(sink.held()).unwrap_or("");
    Ok((status, report.contains(word)))
}

// The names of a folder's files, each with what it says.
fn files(rt: &HostRuntime, path: &str) -> Result<String, Fail> {
    let alloc = rt.alloc();
    let mut all = String::new(alloc);
    for name in &folder_at(rt, path)?.names()? {
        let file = format!(in alloc; "{}/{}", path, name.as_str())?;
        let text = fs::read_to_string(rt, file.as_str())?;
        all.push_str(name.as_str())?;
        all.push_str("\n")?;
        all.push_str(text.as_str())?;
    }
    Ok(all)
}

#[test]
fn files_say_what_a_run_left(rt: HostRuntime) -> Result<(), Fail> {
    let table: [(&[&str], &str); 5] = [
        (
            &[CREATE, "run\n"],
            "s+a+1\n{\"kind\":\"Test::Box\",\"leaving\":false,\"ready\":true}\n{\"size\":1}\n",
        ),
        (
            &[CREATE, "run\n", UPDATE, "run 3\n"],
            "s+a+1\n{\"kind\":\"Test::Box\",\"leaving\":false,\"ready\":false}\n{\"size\":2}\n",
        ),
        (
            &[CREATE, "run\n", UPDATE, "run\n"],
            "s+a+1\n{\"kind\":\"Test::Box\",\"leaving\":false,\"ready\":true}\n{\"size\":2}\n",
        ),
        (
            &[CREATE, "run\n", "delete s\nrun 3\n"],
            "s+a+1\n{\"kind\":\"Test::Box\",\"leaving\":true,\"ready\":true}\n{\"size\":1}\n",
        ),
        (&[CREATE, "run\n", "delete s\nrun\n"], ""),
    ];
    for (parts, left) in table {
        let told = tells(&rt, "files_of_the_test", parts, "s 1 CREATE_COMPLETE")?;
        assert_eq!(rt; told, (0, true));
        assert_eq!(rt; files(&rt, "files_of_the_test")?.as_str(), left);
    }
    Ok(())
}

// Fifty letters: six of them are more than a file's name may have.
const FIFTY: &str = "abcdefghijklmnopqrstuvwxyabcdefghijklmnopqrstuvwxy";

#[test]
fn a_write_that_fails_is_told_and_leaves_no_file(rt: HostRuntime) -> Result<(), Fail> {
    let parts = [
        "create ",
        FIFTY,
        FIFTY,
        FIFTY,
        " {\"template\":{\"heat_template_version\":\"2018-08-31\",\"resources\":{\"",
        FIFTY,
        FIFTY,
        FIFTY,
        "\":{\"type\":\"Test::Box\"}}}}\nrun\n",
        CREATE,
        "run\n",
    ];
    let told = tells(&rt, "failed_of_the_test", &parts, "CREATE_FAILED")?;
    assert_eq!(rt; told, (0, true));
    assert_eq!(rt;
        files(&rt, "failed_of_the_test")?.as_str(),
        "s+a+2\n\
        {\"kind\":\"Test::Box\",\"leaving\":false,\"ready\":true}\n{\"size\":1}\n"
    );
    Ok(())
}

// What is told of a folder with one file.
fn fault(rt: &HostRuntime, name: &str, text: &str) -> Result<&'static str, Fail> {
    clear(rt, "told_of_the_test")?;
    let file = format!(in rt.alloc(); "told_of_the_test/{}", name)?;
    fs::write(rt, file.as_str(), text)?;
    match load(folder_at(rt, "told_of_the_test")?) {
        Ok(_) => Ok("nothing"),
        Err(LoadFault::At(_, wrong)) => Ok(wrong.words()),
        Err(LoadFault::Memory) => Err(AllocError.into()),
    }
}

#[test]
fn what_a_file_says_is_read_or_told(rt: HostRuntime) -> Result<(), Fail> {
    let (name, card) = ("its name is no token's", "it says no resource");
    let table = [
        (
            "s+a+1",
            "{\"kind\":\"K\",\"leaving\":false,\"ready\":true}\n{}\n",
            "nothing",
        ),
        (
            "s+a+1",
            " {\"ready\":true,\"leaving\":false,\"kind\":\"K\"}\n{}",
            "nothing",
        ),
        (".new", "", "nothing"),
        ("s+a+01", "", name),
        ("s+a", "", name),
        ("1+a+1", "", name),
        ("s+a+1", "", card),
        (
            "s+a+1",
            "{\"kind\":\"K\",\"leaving\":false,\"ready\":true}\n[]\n",
            card,
        ),
        (
            "s+a+1",
            "{\"kind\":\"K\",\"leaving\":false,\"ready\":true}\n{\"a\":0.5}\n",
            card,
        ),
        (
            "s+a+1",
            "{\"kind\":\"K\",\"left\":0,\"leaving\":false,\"ready\":true}\n{}\n",
            card,
        ),
        ("s+a+1", "{\"kind\":\"K\",\"leaving\":false}\n{}\n", card),
    ];
    for (file, text, told) in table {
        assert_eq!(rt; fault(&rt, file, text)?, told);
    }
    fs::remove_dir_all(&rt, "told_of_the_test")?;
    let lost = driven(
        &rt,
        "told_of_the_test",
        "",
        &mut MemSink::new(rt.alloc(), 4096, &[])?,
    )?;
    assert_eq!(rt; lost, 12);
    Ok(())
}
