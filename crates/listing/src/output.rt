// What a program writes.
use task::Fault;

// The bytes, and the refusal that ended them, if one did.
#[derive(Drop)]
pub struct Output {
    pub text: Vec<u8>,
    pub refusal: Option<Fault>,
}
