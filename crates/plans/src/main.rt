// Reads a translator file on standard input and writes its cheapest plans; ends with status 1 after a refusal.
#![tactic(auto)]

use listing::list_plans;
use std::alloc::Global;
use std::io;
use std::io::{Read, Write};
use std::process::ExitCode;
use task::Fault;
use text::write_refusal;

// The input, or so much of it that it is seen to be too long. By hand, and not by `read_to_end`: each read has room
// for 4,096 bytes, so that a stream of packets loses none, and the read after the one that goes past 65,536 bytes is
// made too, so that a stream that fails there ends the program before it writes.
fn read_input(rt: &HostRuntime, heap: Global) -> io::Result<Vec<u8>> {
    let mut input = rt.stdin();
    let mut bytes = Vec::new(heap);
    for _ in 0..65_537 {
        let mut chunk = [0; 4096];
        let count = input.read(&mut chunk)?;
        if count == 0 || bytes.len() > 65_536 {
            break;
        }
        bytes.extend_from_slice(&chunk[..count])?;
    }
    Ok(bytes)
}

// Reads the input, and writes its plans or why there are none: the exit code.
fn run(rt: &HostRuntime) -> io::Result<ExitCode> {
    let heap = rt.alloc();
    let bytes = read_input(rt, heap)?;
    let mut output = rt.stdout();
    match list_plans(heap, &bytes) {
        Ok(listed) => {
            output.write_all(&listed.text)?;
            Ok(match listed.refusal {
                None => ExitCode::SUCCESS,
                Some(_) => ExitCode::FAILURE,
            })
        }
        Err(e) => {
            // Text goes into a lent buffer.
            let mut line = [0; 64];
            let length = write_refusal(Fault::from(e), &mut line).unwrap();
            output.write_all(&line[..length])?;
            Ok(ExitCode::FAILURE)
        }
    }
}

fn main(rt: HostRuntime) -> ExitCode {
    run(&rt).unwrap_or(ExitCode::FAILURE)
}

#[cfg(test)]
mod tests {
    use super::list_plans;
    use std::alloc::{AllocError, Global};
    use std::process::Abort;
    use std::test::Fail;

    // One variable of two values; two operators lead from the one to the other.
    const SAMPLE: &[u8] =
        b"begin_version\n3\nend_version\nbegin_metric\n0\nend_metric\n1\nbegin_variable\nvar0\n-1\n2\nAtom blank(page)\nAtom done(page)\nend_variable\n0\nbegin_state\n0\nend_state\nbegin_goal\n1\n0 1\nend_goal\n2\nbegin_operator\nread page\n0\n1\n0 0 0 1\n1\nend_operator\nbegin_operator\ntype page\n0\n1\n0 0 0 1\n1\nend_operator\n0\n";

    const PLANS: &[u8] =
        b"(read page)\n; cost = 1 (unit cost)\n(type page)\n; cost = 1 (unit cost)\n";

    // The sample with another text in place of a line, counted from 1.
    fn with_line(heap: Global, line: usize, text: &[u8]) -> Result<Vec<u8>, AllocError> {
        let mut bytes = Vec::new(heap);
        for (before, old) in SAMPLE.split_inclusive(|b| *b == b'\n').enumerate() {
            if before + 1 == line {
                bytes.extend_from_slice(text)?;
                bytes.push(b'\n')?;
            } else {
                bytes.extend_from_slice(old)?;
            }
        }
        Ok(bytes)
    }

    fn writes(
        rt: &impl Abort,
        heap: Global,
        bytes: &[u8],
        expected: &[u8],
        refused: bool,
    ) -> Result<(), Fail> {
        let output = list_plans(heap, bytes)?;
        assert!(rt; output.text.as_slice() == expected);
        assert_eq!(rt; output.refusal.is_some(), refused);
        Ok(())
    }

    fn refuses(
        rt: &impl Abort,
        heap: Global,
        line: usize,
        text: &[u8],
        expected: &[u8],
    ) -> Result<(), Fail> {
        let bytes = with_line(heap, line, text)?;
        writes(rt, heap, &bytes, expected, true)
    }

    #[test]
    fn sample_is_listed(rt: HostRuntime) -> Result<(), Fail> {
        writes(&rt, rt.alloc(), SAMPLE, PLANS, false)
    }

    #[test]
    fn any_value_before_is_carried(rt: HostRuntime) -> Result<(), Fail> {
        let bytes = with_line(rt.alloc(), 28, b"0 0 -1 1")?;
        writes(&rt, rt.alloc(), &bytes, PLANS, false)
    }

    #[test]
    fn lengths_are_refused(rt: HostRuntime) -> Result<(), Fail> {
        let heap = rt.alloc();
        writes(&rt, heap, b"", b"refused 1 at 1\n", true)?;
        writes(
            &rt,
            heap,
            &SAMPLE[0..SAMPLE.len() - 1],
            b"refused 1 at 38\n",
            true,
        )?;
        let long = vec![in heap; 10; 65537]?;
        writes(&rt, heap, &long, b"refused 6 at 0\n", true)?;
        refuses(&rt, heap, 38, b"0\nx", b"refused 7 at 39\n")
    }

    #[test]
    fn lines_are_refused(rt: HostRuntime) -> Result<(), Fail> {
        let heap = rt.alloc();
        refuses(&rt, heap, 1, b"begin", b"refused 2 at 1\n")?;
        refuses(&rt, heap, 2, b"4", b"refused 3 at 2\n")?;
        refuses(&rt, heap, 5, b"2", b"refused 3 at 5\n")?;
        refuses(&rt, heap, 7, b"0", b"refused 3 at 7\n")?;
        refuses(&rt, heap, 7, b"61", b"refused 6 at 7\n")?;
        refuses(&rt, heap, 10, b"0", b"refused 4 at 10\n")?;
        refuses(&rt, heap, 11, b"02", b"refused 3 at 11\n")?;
        refuses(&rt, heap, 11, b"1001", b"refused 6 at 11\n")?;
        refuses(&rt, heap, 17, b"2", b"refused 3 at 17\n")?;
        refuses(&rt, heap, 21, b"0 1 ", b"refused 3 at 21\n")?;
        refuses(&rt, heap, 23, b"4097", b"refused 6 at 23\n")?;
        refuses(&rt, heap, 26, b"1\n0 0", b"refused 5 at 29\n")?;
        refuses(&rt, heap, 28, b"1 0 0 1", b"refused 4 at 28\n")?;
        refuses(&rt, heap, 38, b"1", b"refused 4 at 38\n")
    }

    #[test]
    fn no_plan_within_reach(rt: HostRuntime) -> Result<(), Fail> {
        let heap = rt.alloc();
        let mut bytes = Vec::new(heap);
        for line in SAMPLE.split_inclusive(|b| *b == b'\n').take(22) {
            bytes.extend_from_slice(line)?;
        }
        bytes.extend_from_slice(b"0\n0\n")?;
        writes(&rt, heap, &bytes, b"refused 12 at 0\n", true)
    }
}
