/// The error of what cannot fail: no value has this type.
#[derive(Drop)]
pub enum Never {}
