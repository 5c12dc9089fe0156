//! The law: a function with nothing to do, whose contract is the law.
ghost use Rattle.std.specs.Prelude.{◌≡◌, ◌++◌, ℕ};
ghost use Rattle.rose_shell.specs.Certifying.{HasCertified};
ghost use Rattle.rose_shell.specs.Auditing.{HasAudited};
ghost use Rattle.rose_shell.specs.declared.status.Status.TheVariants.{Done};
ghost use Rattle.audited_certificate.specs.Found.{FindsSound};

use outside_world::Outside;

/// A run of `certify` is done, and one of `audit` too, with just the bytes that the first has given as its input. Then it finds
/// the certificate of what the files keep sound, with as many changes as their records have, and their steps.
pub fn certificate_is_audited<W: Outside, V: Outside>()
    ensures { (old new : W) (before after : V) (budget : ℕ) → HasCertified (W.view old) (W.view new) Done
        → HasAudited (V.view before) (V.view after) budget Done
        → (W.view new).given ≡ (W.view old).given ++ (V.view before).left
        → FindsSound (W.view old).reads (V.view before) (V.view after) }
{}
