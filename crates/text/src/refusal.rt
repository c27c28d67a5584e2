// The line that says why a program stopped.
ghost use Rattle.std.specs.Prelude.{◌≡◌, length};
ghost use Rattle.text.specs.Buffer.{after, fit};
ghost use Rattle.text.specs.RefusalLine.{refusal_line};

use super::parts::write_all;
use itoa::Buffer;
use task::Fault;

// The line at the front of `text`, and its length; later bytes stay. Refused where it does not fit.
pub fn write_refusal(fault: Fault, text: &mut [u8]) -> Result<usize, Fault>
    ensures answers { result ≡ fit (length text.old) (length (refusal_line fault)) }
    ensures buffer { text.new ≡ after result (refusal_line fault) text.old }
{
    let Some(number) = fault.kind.number() else {
        return write_all(&[b"out of memory\n"], text);
    };
    let mut kind = Buffer::new();
    let mut place = Buffer::new();
    let parts: [&[u8]; 5] = [
        b"refused ",
        kind.format(number).as_bytes(),
        b" at ",
        place.format(fault.place).as_bytes(),
        b"\n",
    ];
    write_all(&parts, text)
}
