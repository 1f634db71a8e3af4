//! What holds of every bus, whatever base and shares it stands for.

ghost use Rattle.std.specs.Prelude.{◌≡◌, ℕ, ◌+◌, ◌-◌, ◌*◌, ◌<◌, ◌≤◌, List, None, length};
ghost use Rattle.core_state.specs.Sharing.{in_order};
ghost use Rattle.nor_device.specs.declared.step.Step.{Step};
ghost use Rattle.mmu_map.specs.Place.{place_of};
ghost use Rattle.mmu_map.specs.Map.{Map, IsWhole, IsFixedAt, IsFreeRun, fixed, use_in};
ghost use Rattle.bus_hub.specs.Fetch.{IsFixed};
ghost use Rattle.bus_hub.specs.declared.did.Base.{Base};
ghost use Rattle.bus_hub.specs.declared.did.Did.{Did};
ghost use Rattle.bus_hub.specs.Room.{HasRoom};
ghost use Rattle.bus_hub.specs.Hub.{needs, byte_needs, owed, room_of, core_of, PowerIs};
ghost use Rattle.bus_hub.specs.Shares.{own_begun, open_from, made, moved_by, ShowsFlash, all_of, off_after_all, count_after_all, StopsAt};
ghost use Rattle.bus_hub.specs.Legal.{LegalTo};
ghost use Rattle.bus_hub.specs.Told.{IsSafe};

use crate::bus::Bus;
use crate::duty::Duty;
use core_state::Records;
use crash_images::Crash;

impl<D: Crash, K: Duty> Bus<D, K> {
    /// Every flash that a loss of power may leave now is good by the duty.
    pub fn safe(&self)
        ensures { IsSafe ⟦<Bus<D, K> as Records>⟧.stands D.may_leave K.good self.now }
    {
        let _ = &self.dev;
    }

    /// A core knows by its own share what it may do, which step of its own runs, and how much room
    /// the journal has for it, whatever the other core did.
    pub fn known(&self)
        ensures part { (b : Base D.Setting K) (c : ℕ) (mine theirs : List Did) → c < 2
            → in_order (⟦<Bus<D, K> as Records>⟧.stands self.now b) c mine theirs
            → K.part self.now.duty c ≡ moved_by K.moved (K.part b.duty c) (made mine) }
        ensures step { (b : Base D.Setting K) (c : ℕ) (mine theirs : List Did) → c < 2
            → in_order (⟦<Bus<D, K> as Records>⟧.stands self.now b) c mine theirs
            → own_begun c self.now.running ≡ open_from None mine }
        ensures room { (b : Base D.Setting K) (c : ℕ) (mine theirs : List Did) (n m : ℕ) → c < 2
            → in_order (⟦<Bus<D, K> as Records>⟧.stands self.now b) c mine theirs
            → needs mine + n ≤ (room_of b c).entries → byte_needs mine + m ≤ (room_of b c).bytes
            → HasRoom self.now.journal (owed self.now.running + n) m }
        ensures may { (b : Base D.Setting K) (c : ℕ) (mine theirs : List Did) (step : Step) → c < 2
            → in_order (⟦<Bus<D, K> as Records>⟧.stands self.now b) c mine theirs
            → K.grants (moved_by K.moved (K.part b.duty c) (made mine)) step
            → K.grants (K.part self.now.duty c) step }
    {}

    /// The journal is legal, and each fetch shows the bytes of the flash as it was then.
    pub fn legal(&self)
        ensures journal { (b : Base D.Setting K) (left right : List Did)
            → ⟦<Bus<D, K> as Records>⟧.stands self.now b left right
            → LegalTo None self.now.journal.entries (core_of self.now.running) }
        ensures fetches { (b : Base D.Setting K) (left right : List Did)
            (s : ⟦<Bus<D, K> as Records>⟧.stands self.now b left right)
            → ShowsFlash b.map b.flash s.stood.log }
    {}

    /// Size, number of steps and power of the device by the log. Where every read and start is
    /// refused after the last step, the log has no more steps and fetches.
    pub fn lasting(&self)
        ensures size { (b : Base D.Setting K) (left right : List Did)
            → ⟦<Bus<D, K> as Records>⟧.stands self.now b left right
            → length b.flash ≡ D.size self.now.dev }
        ensures counted { (b : Base D.Setting K) (left right : List Did)
            (s : ⟦<Bus<D, K> as Records>⟧.stands self.now b left right)
            → D.steps self.now.dev ≡ count_after_all b.steps (all_of s.stood.log) }
        ensures power { (b : Base D.Setting K) (left right : List Did)
            (s : ⟦<Bus<D, K> as Records>⟧.stands self.now b left right)
            → PowerIs (D.off self.now.dev) (off_after_all b.off (all_of s.stood.log))
            (D.must_refuse (D.setting self.now.dev) (D.steps self.now.dev)) }
        ensures stops { (b : Base D.Setting K) (left right : List Did)
            (s : ⟦<Bus<D, K> as Records>⟧.stands self.now b left right)
            → StopsAt (D.must_refuse (D.setting self.now.dev)) b.steps s.stood.log }
    {}
    /// What was fixed when the bus was made is fixed to the same flash pages, whatever the cores mapped
    /// and freed since. A range that could be fetched by it can still be.
    pub fn fixed(&self)
        ensures pages { (b : Base D.Setting K) (left right : List Did) (at : ℕ)
            → ⟦<Bus<D, K> as Records>⟧.stands self.now b left right → IsFixedAt b.map at
            → use_in self.now.map (place_of at) ≡ use_in b.map (place_of at) }
        ensures range { (b : Base D.Setting K) (left right : List Did) (at len : ℕ)
            → ⟦<Bus<D, K> as Records>⟧.stands self.now b left right
            → IsFixed b.map (length b.flash) at len
            → IsFixed self.now.map (D.size self.now.dev) at len }
    {}
}

/// A range inside pages that were just fixed is fixed, where their flash pages lie in the flash. It
/// stays so while more is fixed.
pub fn a_range_in_fixed_pages_is_fixed()
    ensures there { (m : Map) (at flash_page n size from len : ℕ) → IsWhole m → IsFreeRun m at n
        → at ≤ from → from + len ≤ at + n * 65536
        → flash_page * 65536 + (from - at) + len ≤ size
        → IsFixed (fixed m at flash_page n) size from len }
    ensures kept { (m : Map) (at flash_page n size from len : ℕ) → IsWhole m → IsFreeRun m at n
        → IsFixed m size from len → IsFixed (fixed m at flash_page n) size from len }
{}
