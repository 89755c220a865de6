// Where rows stand in lent bytes.
ghost use Rattle.lists.specs.Lists.{Bytes};
ghost use Rattle.choice.specs.PrivateStanding.{Standing};

// `count` rows of m elements in lent bytes: row k begins at start + k * stride.
#[derive(Clone, Copy)]
pub struct Rows<'a> {
    pub bytes: &'a [u8],
    pub start: usize,
    pub stride: usize,
    pub count: usize,
    pub m: usize,
    pub ghost standing: { Standing start stride count m bytes.now },
    pub ghost all_bytes: { Bytes bytes.now },
}
