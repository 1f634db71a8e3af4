//! What the steps of a key store leave, over all flashes.

ghost use Rattle.std.specs.Prelude.{◌≡◌, ◌≢◌, ◌⊎◌, ◌<◌, ◌≤◌, ◌+◌, ◌*◌, ◌++◌, ℕ, All, List, [], ◌∷◌, Option, Some, None, if◌then◌else◌, length, slice_index};
ghost use Rattle.std.specs.FinMap.{get, len};
ghost use Rattle.nor_device.specs.declared.step.Step.{Step};
ghost use Rattle.nor_device.specs.Flash.{after_steps};
ghost use Rattle.nor_device.specs.Nor.{part_of};
ghost use Rattle.crash_images.specs.Crash.{LeftAfter};
ghost use Rattle.nvs_keys.specs.declared.bank.Bank.{Bank};
ghost use Rattle.nvs_keys.specs.declared.bank.Bank.TheVariants.{First};
ghost use Rattle.nvs_keys.specs.declared.place.Place.{Place};
ghost use Rattle.nvs_keys.specs.Changes.{Change, IsChange, Map, changed, live, map_after, no_keys, same_key};
ghost use Rattle.nvs_keys.specs.Slots.{given, record_bytes, slot_of};
ghost use Rattle.nvs_keys.specs.Banks.{IsGeneration, IsPlace, active_in, header_bytes, keys_in, live_in, map_of, mark_of, other, records, used_in};
ghost use Rattle.nvs_keys.specs.Steps.{bank_behind, change_steps, exchange_steps, format_steps, generation_behind, joined, put_steps, slot_at};
ghost use Rattle.nvs_keys.specs.Left.{AreAccepted, ChanceAt, ChanceIn, HasRoom, IsAccepted, IsAfterSome, IsBeforeOrAfter, Knows};

/// A change gives its key its value, or none, and leaves all other keys.
pub fn changes_set_one_key()
    ensures { (m : Map) (c : Change) (key : List ℕ)
        → get (changed m c) key ≡ (if same_key key c.key then c.value else get m key) }
{}

/// The live changes of a list make the map that all of them make (`map`), and it has as many keys as
/// there are live ones (`count`).
pub fn live_changes_give_the_map()
    ensures map { (cs : List Change) → map_after no_keys (live cs) ≡ map_after no_keys cs }
    ensures count { (cs : List Change) → len (map_after no_keys cs) ≡ length (live cs) }
{}

/// A record has 51 bytes behind its gate (`size`), all of them bytes (`bytes`), and gives its change
/// once the gate is zero (`given`). A slot with another gate gives nothing (`shut`). A copy gives what
/// the record gave (`copy`).
pub fn records_give_their_change()
    ensures size { (c : Change) → IsChange c → length (record_bytes c) ≡ 51 }
    ensures bytes { (c : Change) → IsChange c → All (λ b. b < 256) (record_bytes c) }
    ensures given { (c : Change) → IsChange c → given (slot_of 0 (record_bytes c)) ≡ Some c }
    ensures shut { (slot : List ℕ) → slice_index slot 0 ≢ 0 → given slot ≡ None }
    ensures copy { (flash : List ℕ) (from : ℕ) (c : Change) → from + 64 ≤ length flash
        → given (part_of flash from 64) ≡ Some c
        → given (slot_of 0 (part_of flash (from + 1) 51)) ≡ Some c }
{}

/// The header of a generation has eight bytes (`size`) and gives it (`given`).
pub fn headers_give_their_generation()
    ensures size { (generation : ℕ) → length (header_bytes generation) ≡ 8 }
    ensures given { (generation : ℕ) → IsGeneration generation
        → mark_of (header_bytes generation) ≡ Some generation }
{}

/// A change is one record in the first free slot (`free`). Where no slot is free, it is an exchange of
/// banks, and the record behind the live ones (`used_up`).
pub fn a_change_puts_a_record_or_exchanges_the_banks()
    ensures free { (p : Place) (flash : List ℕ) (bank : Bank) (generation : ℕ) (c : Change)
        → used_in p flash bank < records p
        → change_steps p flash bank generation c
        ≡ put_steps (slot_at p bank (used_in p flash bank)) (record_bytes c) }
    ensures used_up { (p : Place) (flash : List ℕ) (bank : Bank) (generation : ℕ) (c : Change)
        → records p ≤ used_in p flash bank
        → change_steps p flash bank generation c
        ≡ exchange_steps p flash bank generation
        ++ put_steps (slot_at p (other bank) (live_in p flash bank)) (record_bytes c) }
{}

/// A key is set or removed. Each flash that a loss of power may leave of the steps holds the keys
/// before or the changed ones, unless a header matches by chance (`left`). Behind all steps the flash
/// holds the changed ones (`done`), and a bank is active again (`known`).
pub fn a_change_keeps_the_keys_before_or_after()
    ensures left { (p : Place) (flash : List ℕ) (bank : Bank) (generation : ℕ) (c : Change)
        → All (λ b. b < 256) flash → Knows p flash bank generation → IsChange c
        → HasRoom p flash bank generation
        → (left : List ℕ) → LeftAfter flash (change_steps p flash bank generation c) left
        → IsBeforeOrAfter p flash (change_steps p flash bank generation c)
        (Some (changed (map_of p flash bank) c)) left }
    ensures done { (p : Place) (flash : List ℕ) (bank : Bank) (generation : ℕ) (c : Change)
        → All (λ b. b < 256) flash → Knows p flash bank generation → IsChange c
        → HasRoom p flash bank generation
        → keys_in p (after_steps flash (change_steps p flash bank generation c))
        ≡ Some (changed (map_of p flash bank) c) }
    ensures known { (p : Place) (flash : List ℕ) (bank : Bank) (generation : ℕ) (c : Change)
        → All (λ b. b < 256) flash → Knows p flash bank generation → IsChange c
        → HasRoom p flash bank generation
        → Knows p (after_steps flash (change_steps p flash bank generation c))
        (bank_behind p flash bank) (generation_behind p flash bank generation) }
{}

/// The exchange of banks, where some record is not live. Each flash that a loss of power may leave of
/// it holds the same keys, unless a header matches by chance (`left`). Behind it the other bank is
/// active, with the next generation (`known`) and the same map (`map`).
pub fn an_exchange_of_banks_keeps_the_keys()
    ensures left { (p : Place) (flash : List ℕ) (bank : Bank) (generation : ℕ)
        → Knows p flash bank generation → All (λ b. b < 256) flash
        → live_in p flash bank < records p → generation < 0xFFFF_FFFE
        → (left : List ℕ) → LeftAfter flash (exchange_steps p flash bank generation) left
        → (keys_in p left ≡ keys_in p flash)
        ⊎ ChanceIn p flash (exchange_steps p flash bank generation) left }
    ensures known { (p : Place) (flash : List ℕ) (bank : Bank) (generation : ℕ)
        → Knows p flash bank generation → All (λ b. b < 256) flash
        → live_in p flash bank < records p → generation < 0xFFFF_FFFE
        → Knows p (after_steps flash (exchange_steps p flash bank generation)) (other bank)
        (generation + 1) }
    ensures map { (p : Place) (flash : List ℕ) (bank : Bank) (generation : ℕ)
        → Knows p flash bank generation → All (λ b. b < 256) flash
        → live_in p flash bank < records p → generation < 0xFFFF_FFFE
        → map_of p (after_steps flash (exchange_steps p flash bank generation)) (other bank)
        ≡ map_of p flash bank }
{}

/// The format of a store without an active bank. Each flash that a loss of power may leave of it
/// holds no keys or the empty map, unless a header matches by chance (`left`). Behind it the map is
/// empty (`done`), and the first bank is active with generation 1 (`known`).
pub fn a_format_leaves_none_or_the_empty_map()
    ensures left { (p : Place) (flash : List ℕ) → IsPlace p (length flash)
        → active_in p flash ≡ None
        → (left : List ℕ) → LeftAfter flash (format_steps p) left
        → IsBeforeOrAfter p flash (format_steps p) (Some no_keys) left }
    ensures done { (p : Place) (flash : List ℕ) → IsPlace p (length flash)
        → active_in p flash ≡ None
        → keys_in p (after_steps flash (format_steps p)) ≡ Some no_keys }
    ensures known { (p : Place) (flash : List ℕ) → IsPlace p (length flash)
        → active_in p flash ≡ None → Knows p (after_steps flash (format_steps p)) First 1 }
{}

/// Changes one after the other. Behind all of them the map is changed by each in turn (`done`). While
/// one more is under way, a loss of power leaves the keys behind those that were acknowledged, or
/// behind that one too (`one`). At any moment of all of them it leaves the keys behind a first part of
/// them (`left`). Both hold unless a header matches by chance.
pub fn acknowledged_changes_are_kept()
    ensures done { (p : Place) (flash : List ℕ) (m : Map) (cs : List Change)
        (calls : List (List Step))
        → All (λ b. b < 256) flash → AreAccepted p flash cs calls → keys_in p flash ≡ Some m
        → keys_in p (after_steps flash (joined calls)) ≡ Some (map_after m cs) }
    ensures one { (p : Place) (flash : List ℕ) (m : Map) (cs : List Change)
        (calls : List (List Step)) (c : Change) (steps : List Step) (left : List ℕ)
        → All (λ b. b < 256) flash → AreAccepted p flash cs calls → keys_in p flash ≡ Some m
        → IsAccepted p (after_steps flash (joined calls)) c steps
        → LeftAfter (after_steps flash (joined calls)) steps left
        → (keys_in p left ≡ Some (map_after m cs))
        ⊎ ((keys_in p left ≡ Some (changed (map_after m cs) c))
        ⊎ ChanceIn p (after_steps flash (joined calls)) steps left) }
    ensures left { (p : Place) (flash : List ℕ) (m : Map) (cs : List Change)
        (calls : List (List Step)) (left : List ℕ)
        → All (λ b. b < 256) flash → AreAccepted p flash cs calls → keys_in p flash ≡ Some m
        → LeftAfter flash (joined calls) left
        → IsAfterSome p m cs left ⊎ ChanceAt p flash calls left }
{}
