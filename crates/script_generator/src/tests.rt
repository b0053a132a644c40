//! Generated scripts as the format has them: of two resources byte by byte, one resource of 21, and how long
//! that of 500 is.
use crate::generate;
use std::test::Fail;

// The body of two resources, in which no number is divided by 3 or 7: it is the first and the second.
const OF_TWO: &str = "{\"template\":{\"heat_template_version\":\"2018-08-31\",\"resources\":{\
    \"r0001\":{\"properties\":{\"size\":1},\"type\":\"Test::Box\"},\
    \"r0002\":{\"depends_on\":\"r0001\",\"properties\":{\"size\":2},\"type\":\"Test::Box\"}}}}";

#[test]
fn two_resources_are_these_bytes(rt: HostRuntime) -> Result<(), Fail> {
    let script = generate(rt.alloc(), 2)?;
    let wanted = format!(in rt.alloc();
        "create g {OF_TWO}\nrun\nupdate g {OF_TWO}\nrun 10\nupdate g {OF_TWO}\nrun\ndelete g\nrun\n"
    )?;
    assert_eq!(rt; script.as_str(), wanted.as_str());
    Ok(())
}

#[test]
fn resource_21_is_larger_and_has_a_zone_in_the_second_body(rt: HostRuntime) -> Result<(), Fail> {
    let script = generate(rt.alloc(), 21)?;
    let before =
        "\"r0021\":{\"depends_on\":\"r0010\",\"properties\":{\"size\":21},\"type\":\"Test::Box\"}";
    let after =
        "\"r0021\":{\"depends_on\":\"r0010\",\"properties\":{\"size\":22,\"zone\":\"z\"},\"type\":\"Test::Box\"}";
    for (line, wanted) in [(0, before), (2, after), (4, before)] {
        let text = script.as_str().lines().nth(line).unwrap_or("");
        assert!(rt; text.contains(wanted), "line {line}");
    }
    Ok(())
}

#[test]
fn five_hundred_resources_take_so_many_bytes(rt: HostRuntime) -> Result<(), Fail> {
    assert_eq!(rt; generate(rt.alloc(), 500)?.as_str().len(), 114_649);
    Ok(())
}
