// The search that a package's places and a directory's positions share.
ghost use Rattle.std.specs.Prelude.{ℕ, true, false, ◌<◌, MatchOption};

// The lowest of sixteen numbers that passes. A loop: `find` got no proof where the closure's own clause bounds its argument.
pub fn lowest<F: Fn(usize) -> bool>(passes: F) -> Option<usize>
    requires { (i : ℕ) → i < 16 → F.pre passes i }
    ensures { MatchOption result ((i : ℕ) → i < 16 → F.post passes i false) (λ n. (n < 16) × F.post passes n true × ((i : ℕ) → i < n → F.post passes i false)) }
{
    for i in 0..16 {
        if passes(i) {
            return Some(i);
        }
    }
    None
}
