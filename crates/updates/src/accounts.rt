// The charge of a holder's account.
ghost use Rattle.std.specs.Prelude.{◌≡◌, ◌+◌, ◌<◌, ◌^◌};
ghost use Rattle.updates.specs.Accounts.{raised};

use crate::Account;

// A charge: the live entries become n more.
pub fn charge(account: &mut Account, n: u64)
    requires { account.old.live + n < 2 ^ 64 }
    ensures { account.new ≡ raised account.old n }
{
    account.live += n;
}
