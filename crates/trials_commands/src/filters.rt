//! Filters tried against documents.

use crate::call::{Call, run};
use std::test::Fail;

const TWO_PARAMS: &str =
    "<voe:VOEvent xmlns:voe=\"http://www.ivoa.net/xml/VOEvent/v2.0\" ivorn=\"ivo://a/k#1\" role=\"test\" version=\"2.0\"><What><Param name=\"x\" value=\"1\"/><Param name=\"y\" value=\"2\"/></What></voe:VOEvent>";

const NO_PARAM: &str =
    "<voe:VOEvent xmlns:voe=\"http://www.ivoa.net/xml/VOEvent/v2.0\" ivorn=\"ivo://a/k#1\" role=\"test\" version=\"2.0\"></voe:VOEvent>";

#[test]
fn filters_pass_or_fail_or_are_refused(rt: HostRuntime) -> Result<(), Fail> {
    let table: [(&str, &str, u8, &str); 12] = [
        ("//Param[@name!=\"x\"]", TWO_PARAMS, 0, "passes\n"),
        ("//Param[@name=\"SC_Lat\"]", TWO_PARAMS, 0, "fails\n"),
        ("/*[//Param/@name=\"y\"]", TWO_PARAMS, 0, "passes\n"),
        (
            "/*[local-name()=\"VOEvent\" and @role=\"test\"]",
            TWO_PARAMS,
            0,
            "passes\n",
        ),
        ("//a[not(@b)]", NO_PARAM, 0, "fails\n"),
        // The phase that fails and its place.
        ("//Param[@name=\"x\"", TWO_PARAMS, 3, "refused P4 at 17\n"),
        ("//Param[1]", TWO_PARAMS, 3, "refused P3 at 8\n"),
        ("//a[last()]", NO_PARAM, 3, "refused P3 at 4\n"),
        ("@a=\"1\"", NO_PARAM, 3, "refused P6 at 0\n"),
        ("", NO_PARAM, 3, "refused P1 at 0\n"),
        // What is no document.
        ("//a", "<a", 3, "refused T02 at 0\n"),
        ("//a", "<a></b>", 3, "refused T05 at 1\n"),
    ];
    for (filter, document, status, output) in table {
        let call = Call {
            words: &["match", filter],
            input: document.as_bytes(),
            piece: 1_000,
            read_fails: &[],
            write_fails: &[],
        };
        run(&rt, &call, status, output)?;
    }
    Ok(())
}

#[test]
fn a_refused_filter_leaves_the_source_unread(rt: HostRuntime) -> Result<(), Fail> {
    let call = Call {
        words: &["match", "//a["],
        input: b"<a/>",
        piece: 1,
        read_fails: &[0],
        write_fails: &[],
    };
    run(&rt, &call, 3, "refused P4 at 4\n")?;
    let call = Call {
        words: &["match", "//a"],
        ..call
    };
    run(&rt, &call, 4, "")?;
    let call = Call {
        words: &["match"],
        ..call
    };
    run(&rt, &call, 2, "refused usage\n")?;
    Ok(())
}
