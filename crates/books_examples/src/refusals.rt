// The refusals that the examples expect.
use faults::{Layer, Refusal};

// A refusal by this number, at this place.
pub(crate) fn refusal(number: u8, place: usize, layer: Layer) -> Option<Refusal> {
    Some(Refusal {
        number,
        place,
        layer,
    })
}
