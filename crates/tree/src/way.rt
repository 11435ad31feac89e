// The two ways along a list, which the definitions go by too.

#[derive(Clone, Copy)]
pub enum Way {
    Forward,
    Backward,
}
