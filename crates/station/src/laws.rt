//! What the crates above build on: laws of crashes, and of the moments of calls.
ghost use Rattle.std.specs.Prelude.{◌≡◌, ◌↔◌, ℕ, List, Bool, IsTrue};
ghost use Rattle.station.specs.Disk.{Sector, idle_disk, IsCrashImage};
ghost use Rattle.station.specs.State.{State, MayHaveWritten, Begins, state_after_show};
ghost use Rattle.station.specs.History.{SpansTrue, EndsIn, EachImage, HasShownSome};
ghost use Rattle.station.specs.Choice.{chosen_sectors, state_after_crash};
ghost use Rattle.station.specs.Changes.{ChangesOnly};

/// Of what a crash may leave.
pub fn crash_laws()
    // After a successful sync exactly one image is possible.
    ensures synced { (base image : List Sector) → IsCrashImage (idle_disk base) image
        ↔ (image ≡ base) }

    // A write, failed or not, changes only its sector in every image.
    ensures write { (old : State) (i : ℕ) (bytes : Sector) (new : State)
        → MayHaveWritten old i bytes new → ChangesOnly i old new }

    // A crash leaves, by any choice, an image that was possible, and then that image alone is.
    ensures chosen { (s : State) (choose : List ℕ)
        → IsCrashImage s.disk (chosen_sectors s.disk choose) }
    ensures crashed { (s : State) (choose : List ℕ)
        → EachImage (λ image. image ≡ chosen_sectors s.disk choose) (state_after_crash s choose) }
{}

/// Of each state that calls pass through.
pub fn moment_laws()
    ensures composes { (a b c : List State) (p : State → Bool) → SpansTrue a b p
        → SpansTrue b c p → SpansTrue a c p }
    ensures weakens { (a b : List State) (p q : State → Bool)
        → ((s : State) → IsTrue (p s) → IsTrue (q s)) → SpansTrue a b p → SpansTrue a b q }

    // What is so at the entry, and at each moment after it, is so of the state that was left.
    ensures arrives { (a b : List State) (old new : State) (p : State → Bool) → EndsIn a old
        → EndsIn b new → IsTrue (p old) → SpansTrue a b p → IsTrue (p new) }
{}

/// Of a show that failed.
pub fn show_law()
    // Whatever it has shown is a beginning of what it would have shown.
    ensures shown { (old : State) (bytes : List ℕ) (s : State) → HasShownSome old bytes s
        → Begins s.events (state_after_show old bytes).events }
{}
