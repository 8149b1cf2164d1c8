// Places that stand together: from `from` to before `to`.
#[derive(Drop)]
pub struct Span {
    pub from: usize,
    pub to: usize,
}
