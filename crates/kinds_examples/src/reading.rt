// Tokens that a kind reads, compares and writes.
use kinds::decimal::Decimal;
use kinds::number::{Number, read_number};
use kinds::whole::Whole;
use std::cmp::Ordering;
use std::test::Fail;

// The number of the cause that refuses a token, or 0.
fn cause<K: Number + Drop>(token: &[u8]) -> u8 {
    read_number::<K>(token).err().map_or(0, u8::from)
}

// Whether a token is read and written as these bytes.
fn is_written<K: Number>(token: &[u8], expected: &[u8]) -> bool {
    let mut out = [0u8; 20];
    read_number::<K>(token)
        .ok()
        .and_then(|number| number.write(&mut out))
        .and_then(|length| out.get(..length))
        .is_some_and(|bytes| bytes == expected)
}

#[test]
fn whole_numbers_have_no_point(rt: HostRuntime) {
    assert_eq!(rt; cause::<Whole>(b"704"), 0);
    assert_eq!(rt; cause::<Whole>(b"7.0"), 2);
    assert_eq!(rt; cause::<Whole>(b"7e2"), 2);
    assert_eq!(rt; cause::<Whole>(b"1000000000000000"), 0);
    assert_eq!(rt; cause::<Whole>(b"1000000000000001"), 2);
    assert_eq!(rt; cause::<Whole>(b"-1000000000000000"), 0);
}

#[test]
fn too_long_comes_first(rt: HostRuntime) {
    assert_eq!(rt; cause::<Decimal>(b"1234567890e12345"), 1);
    assert_eq!(rt; cause::<Whole>(b"xxxxxxxxxxxxxxxxxx"), 1);
    assert_eq!(rt; cause::<Decimal>(b""), 2);
    assert_eq!(rt; cause::<Decimal>(b"01"), 2);
    assert_eq!(rt; cause::<Decimal>(b"+1"), 2);
    assert_eq!(rt; cause::<Decimal>(b".5"), 2);
    assert_eq!(rt; cause::<Decimal>(b"5."), 2);
}

#[test]
fn decimals_keep_their_places(rt: HostRuntime) {
    assert!(rt; is_written::<Decimal>(b"1.50", b"1.50"));
    assert!(rt; is_written::<Decimal>(b"-0.00", b"0.00"));
    assert!(rt; is_written::<Decimal>(b"-0.000001", b"-0.000001"));
    assert!(rt; is_written::<Decimal>(b"123456.654321", b"123456.654321"));
    assert!(rt; is_written::<Whole>(b"-0", b"0"));
}

#[test]
fn decimals_compare_as_millionths(rt: HostRuntime) -> Result<(), Fail> {
    // Not by `ok_or`, which would have to drop a `Fail` that isn't used, and a `Fail` can't be dropped.
    let Some(half) = Decimal::from_token(b"0.5") else {
        return Err(Fail::new("0.5 is a decimal"));
    };
    let Some(same) = Decimal::from_token(b"0.50") else {
        return Err(Fail::new("0.50 is a decimal"));
    };
    let Some(minus) = Decimal::from_token(b"-1.5") else {
        return Err(Fail::new("-1.5 is a decimal"));
    };
    assert_eq!(rt; half.compare(same), Ordering::Equal);
    assert_eq!(rt; minus.compare(half), Ordering::Less);
    assert!(rt; minus.is_multiple_of(half));
    assert!(rt; !half.is_multiple_of(minus));
    assert!(rt; half.is_positive());
    assert!(rt; !minus.is_positive());
    assert!(rt; !half.is_multiple_of(Decimal::zero()));
    assert!(rt; Decimal::zero().is_multiple_of(Decimal::zero()));
    Ok(())
}
