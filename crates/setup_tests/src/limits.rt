// Every byte of a SETUP line at its limits and just past them.
use frames::SetupBytes;
use settings::Setup;
use std::test::Fail;

// The eight bytes of a line and the place of its first fault, 0 for none.
const LINES: &str = "\
1 2 1 1 1 1 0 0 0
8 8 128 16 64 64 1 1 0
0 2 1 1 1 1 0 0 1
9 2 1 1 1 1 0 0 1
1 1 1 1 1 1 0 0 2
1 9 1 1 1 1 0 0 2
1 2 0 1 1 1 0 0 3
1 2 129 1 1 1 0 0 3
1 2 1 0 1 1 0 0 4
1 2 1 17 1 1 0 0 4
1 2 1 1 0 1 0 0 5
1 2 1 1 65 65 0 0 5
1 2 1 1 1 0 0 0 6
1 2 1 1 64 65 0 0 6
1 2 1 1 5 6 0 0 6
1 2 1 1 5 5 2 0 7
1 2 1 1 5 5 255 2 7
1 2 1 1 5 5 0 2 8
0 1 129 17 65 66 2 2 1
1 2 1 1 0 1 2 2 5";

fn number(word: Option<&str>) -> Result<u8, Fail> {
    Ok(word.ok_or("a number is missing")?.parse::<u8>()?)
}

#[test]
fn first_faults(rt: HostRuntime) -> Result<(), Fail> {
    for row in LINES.lines() {
        let mut words = row.split(' ');
        let line = SetupBytes {
            stations: number(words.next())?,
            slots: number(words.next())?,
            records: number(words.next())?,
            roots: number(words.next())?,
            t1: number(words.next())?,
            t2: number(words.next())?,
            kind: number(words.next())?,
            pool: number(words.next())?,
        };
        let place = number(words.next())?;
        let fault = Setup::try_from(&line).err();
        assert_eq!(rt; fault.map_or(0, |byte| byte.place()), place);
    }
    Ok(())
}

#[test]
fn in_words(rt: HostRuntime) -> Result<(), Fail> {
    let line = SetupBytes {
        stations: 3,
        slots: 4,
        records: 200,
        roots: 1,
        t1: 8,
        t2: 4,
        kind: 0,
        pool: 1,
    };
    let byte = Setup::try_from(&line)
        .err()
        .ok_or("200 records were accepted")?;
    let words = format!(in rt.alloc(); "{byte}")?;
    assert!(rt; words.as_str() == "records must be 1 to 128");
    Ok(())
}
