use pl_frame::SwitchId;
use pl_layouts::Place;
use pl_ldp::{Control, Ldm, Proposal, Vote, read_control, write_control};
use std::test::Fail;

const ID: SwitchId = SwitchId(0x0102_0304_0506);

// In the first three each field has a value of its own; the others know nothing and name nobody.
const MESSAGES: [(Control, [u8; 35]); 5] = [
    (
        Control::Ldm(
            ID,
            Ldm {
                place: Place {
                    level: Some(0),
                    position: Some(7),
                    pod: Some(0x0809),
                },
                direction: 1,
                echo: Some(SwitchId(0x0a0b_0c0d_0e0f)),
            },
        ),
        [
            3, 0x50, 0x4c, 0, 0, 1, 1, 2, 3, 4, 5, 6, 0x88, 0xb5, 1, 1, 1, 2, 3, 4, 5, 6, 0, 7, 8,
            9, 1, 10, 11, 12, 13, 14, 15, 0xee, 0xee,
        ],
    ),
    (
        Control::Proposal(
            ID,
            Proposal {
                attempt: 0x0708_090a,
                position: 11,
            },
        ),
        [
            3, 0x50, 0x4c, 0, 0, 1, 1, 2, 3, 4, 5, 6, 0x88, 0xb5, 1, 2, 1, 2, 3, 4, 5, 6, 7, 8, 9,
            10, 11, 0xee, 0xee, 0xee, 0xee, 0xee, 0xee, 0xee, 0xee,
        ],
    ),
    (
        Control::Vote(
            ID,
            Vote {
                attempt: 0x0708_090a,
                position: 11,
                granted: false,
                holder: Some(SwitchId(0x0c0d_0e0f_1011)),
                fixed: true,
            },
        ),
        [
            3, 0x50, 0x4c, 0, 0, 1, 1, 2, 3, 4, 5, 6, 0x88, 0xb5, 1, 3, 1, 2, 3, 4, 5, 6, 7, 8, 9,
            10, 11, 0, 12, 13, 14, 15, 16, 17, 1,
        ],
    ),
    (
        Control::Ldm(
            ID,
            Ldm {
                place: Place {
                    level: None,
                    position: None,
                    pod: None,
                },
                direction: 0,
                echo: None,
            },
        ),
        [
            3, 0x50, 0x4c, 0, 0, 1, 1, 2, 3, 4, 5, 6, 0x88, 0xb5, 1, 1, 1, 2, 3, 4, 5, 6, 255, 255,
            255, 255, 0, 0, 0, 0, 0, 0, 0, 0xee, 0xee,
        ],
    ),
    (
        Control::Vote(
            ID,
            Vote {
                attempt: 1,
                position: 0,
                granted: true,
                holder: None,
                fixed: false,
            },
        ),
        [
            3, 0x50, 0x4c, 0, 0, 1, 1, 2, 3, 4, 5, 6, 0x88, 0xb5, 1, 3, 1, 2, 3, 4, 5, 6, 0, 0, 0,
            1, 0, 1, 0, 0, 0, 0, 0, 0, 0,
        ],
    ),
];

// Whether the frame says the message and is written for it. Bytes 0xee stand behind the message.
fn is_spelled(message: &Control, frame: &[u8; 35]) -> bool {
    let Ok(read) = read_control(&frame[14..]) else {
        return false;
    };
    let mut written = [0xee; 35];
    write_control(&read, &mut written);
    read == *message && written == *frame
}

#[test]
fn each_message_is_these_bytes() -> Result<(), Fail> {
    for (message, frame) in &MESSAGES {
        if !is_spelled(message, frame) {
            return Err(Fail::from("a message has other bytes"));
        }
    }
    Ok(())
}
