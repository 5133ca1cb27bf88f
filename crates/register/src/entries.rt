// The entries of a register, in order.
use registers::{FIRST_SIZE, Heading};

// Takes the entries, as long as each is taken; whether all were. An entry has at least a byte, so that the turns
// suffice.
pub fn all<F: FnMut(Heading) -> bool>(register: &[u8], mut take: F) -> bool
    requires { F.IsAlwaysCallable take }
{
    let mut at = FIRST_SIZE;
    for _ in 0..register.len() {
        let Ok(Some(h)) = registers::entry_at(register, at) else {
            return true;
        };
        if !take(h) {
            return false;
        }
        at = h.next;
    }
    true
}
