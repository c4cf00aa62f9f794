// A listing and a refusal as they are to be printed, in buffers with room and with one byte too few.
use super::*;

const CHAINS: Table = Table {
    n: 6,
    m: 4,
    p: 1,
    q: 1,
};

// Two chains of three, 0 to 2 and 3 to 5, the first with a label at its end: each class and each class under it.
const PAIRS: [(usize, usize); 15] = [
    (0, 0),
    (1, 1),
    (2, 2),
    (3, 0),
    (3, 3),
    (4, 0),
    (4, 1),
    (4, 3),
    (4, 4),
    (5, 0),
    (5, 1),
    (5, 2),
    (5, 3),
    (5, 4),
    (5, 5),
];

#[test]
fn two_chains(rt: HostRuntime) {
    let mut relation = [0; Table::WORDS];
    for (b, a) in PAIRS {
        if b < Table::CLASSES && a < Table::CLASSES {
            relation::put(&mut relation, b, a);
        }
    }
    let header = Header {
        table: CHAINS,
        rounds: 2,
    };
    let lines = Lines::new(CHAINS, &relation).expect(&rt, "a relation of six classes");
    let mut out = [b'#'; 100];
    let first = write_into(&mut out, header).expect(&rt, "room for a header");
    assert_eq!(rt; &out[..first], "classes 6 edges 4 rounds 2\n".as_bytes());
    let rest = &mut out[first..];
    let len = write_into(rest, lines).expect(&rt, "room for six lines");
    let want = "0: 0\n1: 1\n2: 2\n3: 0 3\n4: 0 1 3 4\n5: 0 1 2 3 4 5\n";
    assert_eq!(rt; &rest[..len], want.as_bytes());
    assert!(rt; rest[len..].iter().all(|byte| *byte == b'#'));
    let mut same = [b'#'; 100];
    let first = header.write_to(&mut same).expect(&rt, "room for a header");
    let rest = &mut same[first..];
    let len = lines.write_to(rest).expect(&rt, "room for six lines");
    assert_eq!(rt; len, want.len());
    assert_eq!(rt; &same[..], &out[..]);
    let mut short = [b'#'; 47];
    assert_eq!(rt; short.len() + 1, want.len());
    assert!(rt; lines.write_to(&mut short).is_err());
}

#[test]
fn a_refusal(rt: HostRuntime) {
    let mut out = [b'#'; 15];
    let len = write_into(&mut out, Refused(Refusal::BadBlock(1))).expect(&rt, "just room");
    assert_eq!(rt; len, 15);
    assert_eq!(rt; &out[..], "refused 3 at 1\n".as_bytes());
    let mut same = [b'#'; 15];
    let len = Refused(Refusal::BadBlock(1)).write_to(&mut same);
    assert_eq!(rt; len, Ok(15));
    assert_eq!(rt; &same[..], &out[..]);
    let mut short = [b'#'; 14];
    assert!(rt; write_into(&mut short, Refused(Refusal::BadBlock(1))).is_err());
    assert!(rt; Refused(Refusal::BadBlock(1)).write_to(&mut short).is_err());
}

#[test]
fn what_has_no_lines(rt: HostRuntime) {
    let words = [0; Table::WORDS];
    let large = Table { n: 257, ..CHAINS };
    assert_eq!(rt; Lines::new(large, &words).err(), Some(Refusal::OverLimit));
    assert_eq!(rt;
        Lines::new(large, &words[1..]).err(),
        Some(Refusal::ShortBuffer)
    );
    assert_eq!(rt;
        Lines::new(CHAINS, &words[1..]).err(),
        Some(Refusal::ShortBuffer)
    );
}
