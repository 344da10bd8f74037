use units::{Scale, bus_number, decimal, response};

#[test]
fn signs_go_with_the_whole_value(rt: HostRuntime) {
    assert_eq!(rt; decimal(b"-0.25", Scale::Thousandths), Some(-250));
    assert_eq!(rt; decimal(b"-0.0", Scale::Thousandths), Some(0));
    assert_eq!(rt; decimal(b"-1.000", Scale::Thousandths), Some(-1000));
    assert_eq!(rt; decimal(b"-0.25", Scale::Billionths), Some(-250_000_000));
    assert_eq!(rt; decimal(b"-0.000001", Scale::Millionths), Some(-1));
    assert_eq!(rt;
        decimal(b"9999.999999999", Scale::Billionths),
        Some(9_999_999_999_999)
    );
}

#[test]
fn forms_are_refused(rt: HostRuntime) {
    assert_eq!(rt; decimal(b"0.2505", Scale::Thousandths), None);
    assert_eq!(rt; decimal(b"", Scale::Thousandths), None);
    assert_eq!(rt; decimal(b"-", Scale::Thousandths), None);
    assert_eq!(rt; decimal(b"1.", Scale::Thousandths), None);
    assert_eq!(rt; decimal(b".5", Scale::Thousandths), None);
    assert_eq!(rt; decimal(b"10000", Scale::Thousandths), None);
    assert_eq!(rt; decimal(b"+1", Scale::Thousandths), None);
    assert_eq!(rt; decimal(b"--1", Scale::Thousandths), None);
    assert_eq!(rt; decimal(b"1.2.3", Scale::Thousandths), None);
    assert_eq!(rt; decimal(b" 1", Scale::Thousandths), None);
}

#[test]
fn bus_numbers(rt: HostRuntime) {
    assert_eq!(rt; bus_number(b"7"), Some(7));
    assert_eq!(rt; bus_number(b"0064"), Some(64));
    assert_eq!(rt; bus_number(b"00064"), None);
    assert_eq!(rt; bus_number(b"-1"), None);
    assert_eq!(rt; bus_number(b""), None);
}

#[test]
fn responses_divide_by_the_signed_step(rt: HostRuntime) {
    assert_eq!(rt; response(-150_000, -500), Some(300));
    assert_eq!(rt; response(-150_000, 500), Some(-300));
    assert_eq!(rt; response(1, 2), None);
    assert_eq!(rt; response(1_000_000_000, 1_000), Some(1_000_000));
    assert_eq!(rt; response(1_000_001_000, 1_000), None);
    assert_eq!(rt; response(-1_000_000_000, 1_000), Some(-1_000_000));
    assert_eq!(rt; response(0, 5), Some(0));
}
