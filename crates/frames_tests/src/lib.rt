// Examples of lines, frames and answers at every limit.
#![tactic(auto)]

#[cfg(test)]
mod tests {
    use frames::{Answer, Frame, LineFault, LineText, decode, encode};
    use std::process::Abort;
    use std::test::Fail;

    // A line, and what its frame is written back as, or the refusal.
    const LINES: &str = "\
000304800840200001 000304800840200001\n\
01000401 01000401\n\
0100FF02 0100FF02\n\
020103 020103\n\
0302FF0003FF 0302FF0003FF\n\
03020401FF05 03020401FF05\n\
0401040007 0401040007\n\
0501 0501\n\
060007 060007\n\
1000 1000\n\
110002 110002\n\
110002000000010019 110002000000010019\n\
120002 120002\n\
1200FF 1200FF\n\
0100ff02 0100FF02\n\
0100fF02 0100FF02\n\
0302Ff0003fF 0302FF0003FF\n\
1100020aBcDeF0 1100020ABCDEF0\n\
110102AbAbAbAbAbAbAbAbAbAbAbAbAbAbAbAbAbAbAbAbAbAbAbAbAbAbAbAbAbAbAbAbAbAbAbAbAbAbAbAbAbAbAbAbAbAbAbAbAbAbAbAbAbAbAbAbAbAbAbAbAb 110102ABABABABABABABABABABABABABABABABABABABABABABABABABABABABABABABABABABABABABABABABABABABABABABABABABABABABABABABABABABABABAB\n\
\r refused-1\n\
0501\r refused-1\n\
5 refused-1\n\
050 refused-1\n\
050G refused-1\n\
05g0 refused-1\n\
@0 refused-1\n\
0` refused-1\n\
/0 refused-1\n\
0: refused-1\n\
05é0 refused-1\n\
0x0501 refused-1\n\
\t0501 refused-1\n\
110102ABABABABABABABABABABABABABABABABABABABABABABABABABABABABABABABABABABABABABABABABABABABABABABABABABABABABABABABABABABABABABAB refused-1\n\
110102ABABABABABABABABABABABABABABABABABABABABABABABABABABABABABABABABABABABABABABABABABABABABABABABABABABABABABABABABABABABABAB0 refused-1\n refused-2\n\
07 refused-2\n\
0700 refused-2\n\
13 refused-2\n\
0800 refused-2\n\
1300 refused-2\n\
FF00 refused-2\n\
AB refused-2\n\
00 refused-2\n\
0003048008402000 refused-2\n\
00030480084020000101 refused-2\n\
01 refused-2\n\
0100 refused-2\n\
010004 refused-2\n\
0100040100 refused-2\n\
02 refused-2\n\
0201 refused-2\n\
02010300 refused-2\n\
03 refused-2\n\
0302FF0003 refused-2\n\
0302FF0003FF00 refused-2\n\
04 refused-2\n\
04010400 refused-2\n\
0401040007FF refused-2\n\
05 refused-2\n\
050100 refused-2\n\
06 refused-2\n\
0600 refused-2\n\
06000700 refused-2\n\
10 refused-2\n\
100000 refused-2\n\
11 refused-2\n\
1100 refused-2\n\
12 refused-2\n\
1200 refused-2\n\
12000200 refused-2";

    // A line, and what its answer is written back as, or that it is none.
    const ANSWERS: &str = "\
00 00\n\
0000 0000\n\
000100 000100\n\
0001FF 0001FF\n\
00000000 00000000\n\
00000000010019 00000000010019\n\
010100 010100\n\
020100 020100\n\
030208 030208\n\
040201 040201\n\
050202 050202\n\
060303 060303\n\
06030A 06030A\n\
070200 070200\n\
080201 080201\n\
090201 090201\n\
0A0205 0A0205\n\
0B0201 0B0201\n\
0C0202 0C0202\n\
0D0202 0D0202\n\
0E0202 0E0202\n\
0F0201 0F0201\n\
00aaBBcc 00AABBCC\n none\n\
01 none\n\
0001 none\n\
0002 none\n\
00ff none\n\
000001 none\n\
000200 none\n\
0101 none\n\
010200 none\n\
060203 none\n\
070300 none\n\
0F0301 none\n\
100201 none\n\
FF0100 none\n\
01010000 none";

    fn frame_back(line: &[u8]) -> Result<LineText, LineFault> {
        let bytes = decode(line)?;
        let frame = Frame::try_from(bytes.as_slice())?;
        let back = frame.bytes().ok_or(LineFault::Shape)?;
        Ok(encode(&back))
    }

    fn refusal(fault: LineFault) -> &'static str {
        match fault {
            LineFault::Digits => "refused-1",
            LineFault::Shape => "refused-2",
        }
    }

    fn answer_back(line: &[u8]) -> Option<LineText> {
        let bytes = decode(line).ok()?;
        let back = Answer::try_from(bytes.as_slice()).ok()?.bytes()?;
        Some(encode(&back))
    }

    // Each row has a line, and what `back` makes of it or says of it.
    fn rows_hold<'a, F: Fn(&[u8]) -> Result<LineText, &'a str>>(
        rt: &impl Abort,
        rows: &str,
        back: F,
    ) -> Result<(), Fail>
        requires { F.IsAlwaysCallable back }
    {
        for row in rows.split('\n') {
            let (line, want) = row.split_once(' ').ok_or("no space")?;
            match back(line.as_bytes()) {
                Ok(text) => assert!(rt; text.digits() == want.as_bytes(), "{}", row),
                Err(said) => assert!(rt; want == said, "{}", row),
            }
        }
        Ok(())
    }

    #[test]
    fn frames_and_refusals(rt: HostRuntime) -> Result<(), Fail> {
        assert_eq!(rt; LINES.split('\n').count(), 70);
        rows_hold(&rt, LINES, |line| frame_back(line).map_err(refusal))
    }

    #[test]
    fn answers(rt: HostRuntime) -> Result<(), Fail> {
        assert_eq!(rt; ANSWERS.split('\n').count(), 38);
        rows_hold(&rt, ANSWERS, |line| answer_back(line).ok_or("none"))
    }

    // Lines of 0 to 66 bytes, and with one digit more.
    #[test]
    fn lengths(rt: HostRuntime) -> Result<(), Fail> {
        let mut line = Vec::new(rt.alloc());
        for n in 0..=66usize {
            match decode(line.as_slice()) {
                Ok(bytes) => assert!(rt; n <= 64 && bytes.as_slice().len() == n),
                Err(fault) => assert!(rt; n > 64 && fault == LineFault::Digits),
            }
            line.push(b'7')?;
            assert!(rt; decode(line.as_slice()).is_err());
            line.push(b'f')?;
        }
        Ok(())
    }

    // The longest card that fits a line has 61 bytes.
    #[test]
    fn cards_that_fit(rt: HostRuntime) {
        let fits = Frame::Fill {
            station: 1,
            node: 2,
            card: &[7; 61],
        };
        let too_long = Frame::Fill {
            station: 1,
            node: 2,
            card: &[7; 62],
        };
        assert!(rt; fits.bytes().is_some() && too_long.bytes().is_none());
    }
}
