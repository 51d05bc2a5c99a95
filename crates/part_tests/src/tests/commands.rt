use gpu_cmd::{Areas, Command, Span, command_of};

/// A ring's length and the span of one memory, which are not lawful.
const UNLAWFUL: [(u32, u32, u32); 6] = [
    (15, 15, 4),
    (4097, 4097, 4),
    (16, 17, 4),
    (16, 15, 4),
    (16, 16, 0),
    (16, 16, 65_537),
];

fn areas_with(ring: u32, base: u32, words: u32) -> Areas {
    let mut memories = [None; 16];
    memories[2] = Some(Span { base, words });
    Areas {
        ring,
        memories,
        results: [None; 16],
    }
}

#[test]
fn areas_lie_end_to_end(rt: HostRuntime) {
    for (ring, base, words) in UNLAWFUL {
        assert!(rt;
            !areas_with(ring, base, words).is_lawful(),
            "{ring} {base} {words}"
        );
    }
    let areas = areas_with(16, 16, 65_536);
    assert!(rt; areas.is_lawful());
    assert!(rt; areas.places() == 65_552);
}

#[test]
fn words_say_their_command(rt: HostRuntime) {
    // Words after the ring words are not looked at, nor are checks made: no image has a side of 0.
    let words = [(0, 0x2040_0004), (1, 7), (2, 0), (3, 9), (4, 5)];
    assert!(rt;
        matches!(
            command_of(&words),
            Some(Command::CreateImage {
                image: 7,
                width: 0,
                height: 9
            })
        )
    );
    assert!(rt; command_of(&words[..3]).is_none());
    assert!(rt; command_of(&[(0, 0x7000_0001)]).is_none());
}
