// Pieces of text, one after another, at the front of a lent buffer.
ghost use Rattle.std.specs.Prelude.{◌≡◌, ◌≤◌, length};
ghost use Rattle.text.specs.Buffer.{after, fit, over, pieces, room_behind};

use task::{Fault, Kind, Layer};

// The room that the pieces leave behind them; refused where they are longer than the room. By hand, here and
// over the steps of a plan: without a heap the pieces of all steps cannot stand in one list, and a loop over
// any iterator of pieces would have to say which pieces it yields.
pub(crate) fn room_behind(parts: &[&[u8]], room: usize) -> Result<usize, Fault>
    ensures { result ≡ room_behind room (length (pieces parts.now)) }
{
    let mut left = room;
    for part in parts {
        left = left
            .checked_sub(part.len())
            .ok_or(Layer::Text.fault(Kind::BufferShort, 0))?;
    }
    Ok(left)
}

// Writes the pieces over the front of the text, and says where they end.
pub(crate) fn put_all(parts: &[&[u8]], text: &mut [u8]) -> usize
    requires { length (pieces parts.now) ≤ length text.old }
    ensures end { result ≡ length (pieces parts.now) }
    ensures after { text.new ≡ over (pieces parts.now) text.old }
{
    let mut end = 0;
    for part in parts {
        let next = end + part.len();
        text[end..next].copy_from_slice(part);
        end = next;
    }
    end
}

// The pieces at the front of `text`, and where they end; later bytes stay. Refused where they do not fit.
pub(crate) fn write_all(parts: &[&[u8]], text: &mut [u8]) -> Result<usize, Fault>
    ensures answers { result ≡ fit (length text.old) (length (pieces parts.now)) }
    ensures buffer { text.new ≡ after result (pieces parts.now) text.old }
{
    room_behind(parts, text.len())?;
    Ok(put_all(parts, text))
}
