// Writes the cleared book into lent memory.
ghost use Rattle.std.specs.Prelude.{◌≡◌, ◌+◌, ◌≤◌, length};
ghost use Rattle.std.proofs.Math.Seq.{paste};
ghost use Rattle.rules.specs.Clear.{look_up};
ghost use Rattle.clearing.specs.Writing.{bodies, written_over, Writable, WrittenRows};

use crate::adding::{adds, place_of};
use crate::complements::FreeRow;
use crate::fixed::FIXED;
use rules::place::Place;
use rules::row::Row;

// Writes rows over those from `at` on.
fn put(out: &mut [Row], at: usize, rows: &[Row])
    requires { at + length rows.now ≤ length out.old }
    ensures { out.new ≡ paste out.old at rows.now (length rows.now) }
{
    let end = at + rows.len();
    out[at..end].copy_from_slice(rows);
}

// Writes the cleared rows, and the places where the rows stand in them.
pub(crate) fn write_rows(rows: &[Row], d: u16, out: &mut [Row], places: &mut [Place])
    requires { Writable d rows.now out.old places.old }
    ensures { WrittenRows d rows.now out.old out.new places.new }
{
    put(out, 0, &FIXED);
    let mut count = FIXED.len();
    // by index, as each row looks up the places before it; and with a count, as a row adds several at once
    for (r, row) in rows.iter().enumerate() {
        let free = FreeRow {
            number: count as u16,
        };
        let new = adds(&places[..r], d, free, *row);
        let added = new.rows.as_slice();
        put(out, count, added);
        count += added.len();
        places[r] = new.stands;
    }
}

// The row that a body goes to, and the one that its complement goes to.
fn body_rows(places: &[Place], body: u16) -> (u16, u16)
    ensures positive { result.0 ≡ (look_up places.now body).positive }
    ensures negative { result.1 ≡ (look_up places.now body).negative }
{
    let place = place_of(places, body);
    (place.positive, place.negative)
}

// Writes the bodies of the definitions, and after them those of their complements, by the places of their bodies.
pub(crate) fn write_bodies(definitions: &[u16], places: &[Place], out: &mut [u16])
    requires { length definitions.now + length definitions.now ≤ length out.old }
    ensures { out.new ≡ written_over (bodies places.now definitions.now) out.old }
{
    let (bodies, complements) = out.split_at_mut(definitions.len());
    // by index, as a proof knows nothing of what is written through a `zip` of `iter_mut`
    for (k, body) in definitions.iter().enumerate() {
        let (positive, negative) = body_rows(places, *body);
        bodies[k] = positive;
        complements[k] = negative;
    }
}
