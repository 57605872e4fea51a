//! File numbers are granted.
ghost use Rattle.std.specs.Prelude.{◌≡◌, ◌+◌, ◌^◌, ◌≤◌, min};

use crate::cache::Cache;
use fo_disk::Disk;
use fo_image::Super;
use fo_ports::BlockError;

/// Every file number is below this.
const END: u32 = 1 << 30;

/// So many file numbers more are said by a super block than by the one before.
const STEP: u32 = 1024;

// The limit that the next super block says.
fn raised(numbers: u32) -> u32
    requires { numbers ≤ 2 ^ 30 }
    ensures { result ≡ min (numbers + 1024) (2 ^ 30) }
{
    (numbers + STEP).min(END)
}

impl<D: Disk> Cache<D> {
    ghost use Rattle.std.specs.Prelude.{◌≡◌, ◌≢◌, ◌*◌, ◌^◌, ◌<◌, ◌≤◌, ℕ, [], true, None, OnOk, IfOk, IfErr, MatchOption};
    ghost use Rattle.fo_base.specs.Cause.{Rose};
    ghost use Rattle.fo_crash.specs.Images.{SameContent};
    ghost use Rattle.fo_ports.specs.Causes.{Caused};
    ghost use Rattle.fo_ports.specs.State.{Numbers};
    ghost use Rattle.fo_mind.specs.MindParts.{parts};
    ghost use Rattle.fo_mind.specs.Parts.{CacheKeeps, least_limit, memory, state_of};
    ghost use Rattle.fo_cache.specs.Called.{Makes, at_only, no_more};
    ghost use Rattle.fo_cache.specs.Easing.{Eases};
    ghost use Rattle.fo_cache.specs.Numbering.{Renumbers};
    ghost use Rattle.fo_cache.specs.Supers.{IsFault};
    ghost use Rattle.fo_cache.specs.Work.{AtMost, in_doubt, work};

    /// Grants the next file number, which is below the limit of each super block that the device may have; None where it would be 2^30.
    /// Where none says so many, another super block is written and settled. It stays granted until it is taken.
    pub fn number(&mut self) -> Result<Option<u32>, BlockError>
        ensures next { IfOk result (λ n. MatchOption n (2 ^ 30 ≤ (parts self.old.mind [] 0).next) (λ q. (q ≡ (parts self.old.mind [] 0).next) × (q < 2 ^ 30) × ((parts self.new.mind [] 0).granted ≡ true))) }
        ensures below { IfOk result (λ n. MatchOption n (Unit {0}) (λ q. q < least_limit (parts self.new.mind [] 0).one (parts self.new.mind [] 0).doubt)) }
        ensures renumbers { Renumbers (D.state self.old.main) (D.state self.new.main) (parts self.old.mind [] 0) (parts self.new.mind [] 0) }
        ensures now { (b : ℕ) → b ≢ 1 → SameContent (memory (parts self.new.mind (D.state self.new.main).holds (D.faults self.new.main)) b) (memory (parts self.old.mind (D.state self.old.main).holds (D.faults self.old.main)) b) }
        ensures way { (i : ℕ) → (memory (parts self.new.mind (D.state self.new.main).holds (D.faults self.new.main)) 1).slot i ≡ (memory (parts self.old.mind (D.state self.old.main).holds (D.faults self.old.main)) 1).slot i }
        ensures stays { Numbers (state_of (parts self.old.mind (D.state self.old.main).holds (D.faults self.old.main))) (state_of (parts self.new.mind (D.state self.new.main).holds (D.faults self.new.main))) }
        ensures keeps { CacheKeeps (parts self.old.mind (D.state self.old.main).holds (D.faults self.old.main)) (parts self.new.mind (D.state self.new.main).holds (D.faults self.new.main)) }
        ensures size { D.size self.new.main ≡ D.size self.old.main }
        ensures cause { IfErr result (Caused ⊥ (λ b. ⊥) (Rose (D.faults self.old.main) (D.faults self.new.main)) ⊥) }
        ensures later { D.faults self.old.main ≤ D.faults self.new.main }
    {
        self.next_number()
    }

    // Grants the next file number, where there is one.
    fn next_number(&mut self) -> Result<Option<u32>, BlockError>
        ensures next { IfOk result (λ n. MatchOption n (2 ^ 30 ≤ (parts self.old.mind [] 0).next) (λ q. (q ≡ (parts self.old.mind [] 0).next) × (q < 2 ^ 30) × ((parts self.new.mind [] 0).granted ≡ true))) }
        ensures below { IfOk result (λ n. MatchOption n (Unit {0}) (λ q. q < least_limit (parts self.new.mind [] 0).one (parts self.new.mind [] 0).doubt)) }
        ensures renumbers { Renumbers (D.state self.old.main) (D.state self.new.main) (parts self.old.mind [] 0) (parts self.new.mind [] 0) }
        ensures size { D.size self.new.main ≡ D.size self.old.main }
        ensures cause { IfErr result (Caused ⊥ (λ b. ⊥) (Rose (D.faults self.old.main) (D.faults self.new.main)) ⊥) }
        ensures later { D.faults self.old.main ≤ D.faults self.new.main }
    {
        let next = self.mind.next();
        if END <= next {
            return Ok(None);
        }
        self.make_number()?;
        self.grant();
        Ok(Some(next))
    }

    // Grants the next file number, which is below the limit.
    fn grant(&mut self)
        requires below { (parts self.old.mind [] 0).next < least_limit (parts self.old.mind [] 0).one (parts self.old.mind [] 0).doubt }
        ensures granted { parts self.new.mind [] 0 ≡ record (parts self.old.mind [] 0) { granted = true } }
        ensures device { self.new.main ≡ self.old.main }
    {
        self.mind.grant();
    }

    // The next file number is below the limit, from now on.
    fn make_number(&mut self) -> Result<(), BlockError>
        requires more { (parts self.old.mind [] 0).next < 2 ^ 30 }
        ensures below { OnOk result ((parts self.new.mind [] 0).next < least_limit (parts self.new.mind [] 0).one (parts self.new.mind [] 0).doubt) }
        ensures renumbers { Renumbers (D.state self.old.main) (D.state self.new.main) (parts self.old.mind [] 0) (parts self.new.mind [] 0) }
        ensures size { D.size self.new.main ≡ D.size self.old.main }
        ensures cause { IfErr result (Caused ⊥ (λ b. ⊥) (Rose (D.faults self.old.main) (D.faults self.new.main)) ⊥) }
        ensures later { D.faults self.old.main ≤ D.faults self.new.main }
    {
        if self.mind.next() < self.mind.limit() {
            return Ok(());
        }
        self.settle_doubt()?;
        if self.mind.next() < self.mind.limit() {
            return Ok(());
        }
        self.raise_numbers()
    }

    /// No super block is in doubt, from now on: block 1 is written and settled as memory has it, where one was. It fails only where the
    /// device does.
    pub fn settle_doubt(&mut self) -> Result<(), BlockError>
        ensures eases { Eases (parts self.old.mind (D.state self.old.main).holds (D.faults self.old.main)) (parts self.new.mind (D.state self.new.main).holds (D.faults self.new.main)) }
        ensures certain { OnOk result ((parts self.new.mind [] 0).doubt ≡ None) }
        ensures calls { AtMost (2 * in_doubt (parts self.old.mind [] 0).doubt) (D.calls self.old.main) (D.calls self.new.main) }
        ensures made { Makes (D.state self.old.main) (D.state self.new.main) (D.calls self.old.main) (D.calls self.new.main) (2 * in_doubt (parts self.old.mind [] 0).doubt) 0 (at_only 1 (in_doubt (parts self.old.mind [] 0).doubt)) no_more }
        ensures turns { work (parts self.new.mind [] 0).turns ≤ work (parts self.old.mind [] 0).turns }
        ensures renumbers { Renumbers (D.state self.old.main) (D.state self.new.main) (parts self.old.mind [] 0) (parts self.new.mind [] 0) }
        ensures size { D.size self.new.main ≡ D.size self.old.main }
        ensures cause { IfErr result (Caused ⊥ (λ b. ⊥) (Rose (D.faults self.old.main) (D.faults self.new.main)) ⊥) }
        ensures failed { IfErr result IsFault }
        ensures later { D.faults self.old.main ≤ D.faults self.new.main }
    {
        if !self.mind.is_doubted() {
            return Ok(());
        }
        self.settle_one()?;
        Ok(())
    }

    // Writes and settles a super block that says more file numbers.
    fn raise_numbers(&mut self) -> Result<(), BlockError>
        requires certain { (parts self.old.mind [] 0).doubt ≡ None }
        requires more { (parts self.old.mind [] 0).next < 2 ^ 30 }
        ensures below { OnOk result ((parts self.new.mind [] 0).next < least_limit (parts self.new.mind [] 0).one (parts self.new.mind [] 0).doubt) }
        ensures renumbers { Renumbers (D.state self.old.main) (D.state self.new.main) (parts self.old.mind [] 0) (parts self.new.mind [] 0) }
        ensures size { D.size self.new.main ≡ D.size self.old.main }
        ensures cause { IfErr result (Caused ⊥ (λ b. ⊥) (Rose (D.faults self.old.main) (D.faults self.new.main)) ⊥) }
        ensures later { D.faults self.old.main ≤ D.faults self.new.main }
    {
        let Ok(block) = self.mind.blank() else {
            return Err(BlockError::Memory);
        };
        let was = self.mind.one();
        let one = Super {
            numbers: raised(was.numbers),
            ..was
        };
        self.write_super(one, block)?;
        Ok(())
    }
}
