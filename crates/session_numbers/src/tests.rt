// Whole numbers of the types that a caller names, where the type holds them and where it does not.
use crate::whole_number;

#[test]
fn whole_numbers_of_a_type_that_the_caller_names(rt: HostRuntime) {
    assert_eq!(rt; whole_number::<i64>(b"-9999999999"), Some(-9_999_999_999));
    assert_eq!(rt; whole_number::<i64>(b"99999999999"), None);
    assert_eq!(rt; whole_number::<i64>(b"--1"), None);
    assert_eq!(rt; whole_number::<i16>(b"-32768"), Some(-32_768));
    assert_eq!(rt; whole_number::<i16>(b"-32769"), None);
    assert_eq!(rt; whole_number::<u16>(b"65535"), Some(65_535));
    assert_eq!(rt; whole_number::<u16>(b"65536"), None);
    assert_eq!(rt; whole_number::<u8>(b"0000000255"), Some(255));
    assert_eq!(rt; whole_number::<u8>(b"-0"), Some(0));
    assert_eq!(rt; whole_number::<u8>(b"-1"), None);
    assert_eq!(rt; whole_number::<u8>(b""), None);
}
