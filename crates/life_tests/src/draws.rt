//! The generator of drills. The numbers were computed by a program in Python.

use feed_drill::Draws;

const EXPECTED: [u32; 4] = [2118330556, 4104526463, 3893713506, 1171437346];

#[test]
fn draws_are_the_high_halves(rt: HostRuntime) {
    let mut draws = Draws::new(7);
    for expected in EXPECTED {
        let drawn = draws.draw();
        assert!(rt; drawn == expected, "{drawn}");
    }
}
