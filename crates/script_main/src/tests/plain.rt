//! The program on one thread.

use super::calls::{TWO_TEXELS, TWO_TEXELS_OUTPUT, ends, steady};
use std::test::Fail;

// The script and its output, as `verify` reads them.
const TWO_TEXELS_VERIFIED: &[u8] = b"gpu-script 1
stream 1 normal 16
put 0 20400004 1 2 1 20800007 1 0 0 2 1 ff0000ff
flush 11
 journal \r
order 1 1 11
step 1 0:20400004 1:00000001 2:00000002 3:00000001
step 1 4:20800007 5:00000001 6:00000000 7:00000000 8:00000002 9:00000001 10:ff0000ff
finish 1 1
image 1 2 1
ff0000ff ff0000ff
stream 1 done entries 11 release 0 token 0 words 11 errors 0 0 0
";

#[test]
fn each_failing_read_ends_the_program(rt: HostRuntime) -> Result<(), Fail> {
    for read_fails in 1..=TWO_TEXELS.len() as u32 + 1 {
        let mut edges = steady();
        edges.read_piece = 1;
        edges.read_fails = read_fails;
        ends(&rt, rt.alloc(), &["run"], TWO_TEXELS, &edges, (3, b""))?;
    }
    Ok(())
}

#[test]
fn a_byte_past_the_limit_is_too_much(rt: HostRuntime) -> Result<(), Fail> {
    let text = vec![in rt.alloc(); b'#'; 16_777_217]?;
    let mut edges = steady();
    edges.read_piece = 65_536;
    for word in ["run", "check", "verify"] {
        ends(&rt, rt.alloc(), &[word], &text, &edges, (7, b""))?;
    }
    Ok(())
}

/// Words, a text, the numbers of the read and of the write that fail, how the program ends then, and what it has written.
const ENDS: [(&[&str], &[u8], (u32, u32), (u8, &[u8])); 7] = [
    (&["run", "--workers", "9"], TWO_TEXELS, (1, 1), (2, b"")),
    (&["run"], b"gpu-script 1\n", (0, 1), (0, b"")),
    (
        &["trial", "01", "000"],
        b"",
        (1, 0),
        (
            0,
            b"trial 1 0 events 44 lost 0 images 4 endings 1 sum 95bc861b\n",
        ),
    ),
    (&["trial", "1", "0"], b"", (0, 2), (4, b"trial 1 0 ")),
    (
        &["verify"],
        TWO_TEXELS_VERIFIED,
        (0, 3),
        (4, b"yes events 4\nimage 1"),
    ),
    (&["verify"], TWO_TEXELS_VERIFIED, (2, 0), (3, b"")),
    (&["run", "--workers", "2"], TWO_TEXELS, (2, 0), (3, b"")),
];

// Words of no command read nothing, a trial neither, and where there is nothing to write no write is made. After a failing write a front
// stands.
#[test]
fn a_failing_call_ends_each_command(rt: HostRuntime) -> Result<(), Fail> {
    for (words, text, fails, wanted) in ENDS {
        let mut edges = steady();
        edges.read_fails = fails.0;
        edges.write_fails = fails.1;
        ends(&rt, rt.alloc(), words, text, &edges, wanted)?;
    }
    Ok(())
}

// With no workers, and with two.
#[test]
fn each_failing_write_leaves_a_front(rt: HostRuntime) -> Result<(), Fail> {
    for words in [["run"].as_slice(), &["run", "--workers", "2"]] {
        for write_fails in 1..=TWO_TEXELS_OUTPUT.len() as u32 {
            let mut edges = steady();
            edges.write_piece = 1;
            edges.write_fails = write_fails;
            let front = &TWO_TEXELS_OUTPUT[..write_fails as usize - 1];
            ends(&rt, rt.alloc(), words, TWO_TEXELS, &edges, (4, front))?;
        }
    }
    Ok(())
}
