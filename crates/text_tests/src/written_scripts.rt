use rhythm_base::{Edit, Shape};
use script_writer::write_edits;
use std::test::Fail;

/// The script of edits of each kind, with the least and the greatest numbers among them.
const SCRIPT: &[u8] = b"add 0 76 2880 3830\n\
add 15 127 0 2000000000\n\
drop 0 82 2400\n\
move 15 0 2000000000 10\n\
barline 1 3000\n\
barline 4096 2000000000\n\
pin 1 0 2(. 3(. . .))\n\
pin 15 4096 .\n\
unpin 9 10\n\
addbar\n\
dropbar\n";

#[test]
fn edits_are_written(rt: HostRuntime) -> Result<(), Fail> {
    let alloc = rt.alloc();
    let three = Shape::cut(vec![in alloc; Shape::leaf(), Shape::leaf(), Shape::leaf()]?);
    let two = Shape::cut(vec![in alloc; Shape::leaf(), three]?);
    let edits = vec![in alloc;
        Edit::Add {
            channel: 0,
            key: 76,
            onset: 2880,
            end: 3830
        },
        Edit::Add {
            channel: 15,
            key: 127,
            onset: 0,
            end: 2_000_000_000
        },
        Edit::Drop {
            channel: 0,
            key: 82,
            onset: 2400
        },
        Edit::Move {
            channel: 15,
            key: 0,
            onset: 2_000_000_000,
            to: 10
        },
        Edit::Barline { bar: 1, tick: 3000 },
        Edit::Barline {
            bar: 4096,
            tick: 2_000_000_000
        },
        Edit::Pin {
            channel: 1,
            bar: 0,
            shape: two
        },
        Edit::Pin {
            channel: 15,
            bar: 4096,
            shape: Shape::leaf()
        },
        Edit::Unpin {
            channel: 9,
            bar: 10
        },
        Edit::AddBar,
        Edit::DropBar,
    ]?;
    let text = write_edits(alloc, &edits)?;
    assert!(rt; text.as_slice() == SCRIPT);
    Ok(())
}
