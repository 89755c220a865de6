// Archives of n=3, one place a node and one tag, as Open and Encode make them. Their answers are not looked at: the cases are what shows
// that an archive is the one wanted.
use cases::{Archive, ID, counting_key};

// With no place filled.
pub fn opened(m: usize, nodes: usize, len: usize) -> Archive {
    let mut s = Archive::filled(0, len);
    let _ = archive::open(1, 3, m, 1, nodes, 1, &ID, s.as_mut_slice());
    s
}

// m=2, and these rows at the first nodes.
pub fn encoded(nodes: usize, len: usize, rows: &[[u8; 2]]) -> Archive {
    let mut s = opened(2, nodes, len);
    for (node, row) in rows.iter().enumerate() {
        let _ = coding::encode(
            s.as_mut_slice(),
            node,
            0,
            &[0x57, 0x01],
            &[1, 0, 0, 4],
            &counting_key(0),
            row,
        );
    }
    s
}

// m=1, and of two nodes the second filled.
pub fn second_encoded() -> Archive {
    let mut s = opened(1, 2, 28);
    let _ = coding::encode(
        s.as_mut_slice(),
        1,
        0,
        &[0x57],
        &[1, 0],
        &counting_key(0),
        &[1],
    );
    s
}
