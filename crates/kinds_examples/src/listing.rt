// The list of numbers, for both kinds.
use kinds::decimal::Decimal;
use kinds::number::Number;
use kinds::whole::Whole;
use lists::lent::LentList;

// What a list with room for two does with three numbers.
#[derive(Clone, Copy, PartialEq, Eq, Debug)]
struct Filled {
    // the places of the two that fit
    places: [usize; 2],
    // whether the third is refused
    is_full: bool,
    // how many of those that stand in it are above zero
    positives: usize,
}

fn fill<K: Number>(token: &[u8], slots: &mut [K]) -> Option<Filled> {
    let mut numbers = LentList::new(slots, 2);
    let number = K::from_token(token)?;
    let places = [numbers.push(number)?, numbers.push(K::zero())?];
    let is_full = numbers.push(number).is_none();
    let positives = numbers
        .as_slice()
        .iter()
        .filter(|number| number.is_positive())
        .count();
    Some(Filled {
        places,
        is_full,
        positives,
    })
}

const FILLED: Filled = Filled {
    places: [0, 1],
    is_full: true,
    positives: 1,
};

#[test]
fn a_list_grows_to_its_maximum(rt: HostRuntime) {
    let mut wholes = [Whole::zero(); 3];
    assert_eq!(rt; fill(b"704", &mut wholes), Some(FILLED));
    let mut decimals = [Decimal::zero(); 3];
    assert_eq!(rt; fill(b"7.04", &mut decimals), Some(FILLED));
    assert!(rt; !decimals[2].is_positive(), "memory past the list stays");
}

#[test]
fn a_list_grows_to_its_memory(rt: HostRuntime) {
    let mut slots = [Whole::zero(); 1];
    let mut numbers = LentList::new(&mut slots, 1024);
    assert_eq!(rt; numbers.push(Whole::zero()), Some(0));
    assert_eq!(rt; numbers.push(Whole::zero()), None);
    assert_eq!(rt; numbers.len(), 1);
    assert!(rt; numbers.get(0).is_some());
    assert!(rt; numbers.get(1).is_none());
}
