//! Times.

use std::test::Fail;
use voe_time::{is_time, stamp};

#[test]
fn stamps_moments(rt: HostRuntime) -> Result<(), Fail> {
    let alloc = rt.alloc();
    assert_eq!(rt; stamp(alloc, 0)?.as_str(), "1970-01-01T00:00:00Z");
    assert_eq!(rt;
        stamp(alloc, 951_782_399_999)?.as_str(),
        "2000-02-28T23:59:59Z"
    );
    assert_eq!(rt;
        stamp(alloc, 951_782_400_000)?.as_str(),
        "2000-02-29T00:00:00Z"
    );
    assert_eq!(rt;
        stamp(alloc, 951_782_400_999)?.as_str(),
        "2000-02-29T00:00:00Z"
    );
    assert_eq!(rt;
        stamp(alloc, 4_102_444_799_999)?.as_str(),
        "2099-12-31T23:59:59Z"
    );
    Ok(())
}

#[test]
fn takes_civil_dates_and_times(rt: HostRuntime) {
    for text in [
        "2012-08-27T18:34:41",
        "2020-01-01T00:00:00Z",
        "2020-01-01",
        "2020-01-01Z",
        "2020-01-01 00:00:00",
        "2020-01-01t00:00:00",
        "20200101T000000",
        "2020-01-01T00:00:00.5",
        "2020-01-01T00:00:00,123456789",
        "2020-01-01T23:59:60",
        "+002020-01-01T00:00:00",
        "2020-01-01T00:00:00+01:00",
        "2020-01-01T00:00:00[UTC]",
        "2020-01-01T00:00:00[u-ca=iso8601]",
    ] {
        assert!(rt; is_time(text), "{text:?}");
    }
    for text in [
        "",
        "Z",
        "2020-01-01T24:00:00",
        "2020-01-01T23:59:61",
        "2020-02-30T00:00:00",
        "2020-W01-1T00:00:00",
        "2020-001T00:00:00",
        "2020-01-01T00:00:00z",
        "2020-01-01T00:00:00ZZ",
        " 2020-01-01T00:00:00",
        "2020-01-01T00:00:00 ",
        "2020-01-01T00:00:00[!u-ca=iso8601]",
    ] {
        assert!(rt; !is_time(text), "{text:?}");
    }
}
