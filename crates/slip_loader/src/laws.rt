//! What holds of every stream and of every cutting of it.

ghost use Rattle.std.specs.Prelude.{◌≡◌, ℕ, List, ◌++◌};
ghost use Rattle.std.specs.List.{concat};
ghost use Rattle.nor_device.specs.Flash.{after_steps};
ghost use Rattle.slip_loader.specs.Frames.{Behind, before, behind_after, requests_from, requests_of};
ghost use Rattle.slip_loader.specs.Loads.{State, load_answers, load_steps, pieces_answers, pieces_state, pieces_steps, state_after};

/// Read byte by byte, the requests of a stream are those between two C0 (`whole`), and those of a
/// stream in two pieces are those of the first and then those of the second (`two`).
pub fn laws_of_frames()
    ensures whole { (stream : List ℕ) → requests_from before stream ≡ requests_of stream }
    ensures two { (behind : Behind) (first second : List ℕ)
        → requests_from behind (first ++ second)
        ≡ requests_from behind first ++ requests_from (behind_after behind first) second }
{}

/// A stream in two pieces leaves the state (`state`), makes the steps (`steps`) and gives the answers
/// (`answers`) of the first, and then those of the second from what the first left.
pub fn laws_of_pieces()
    ensures state { (state : State) (first second : List ℕ)
        → state_after state (first ++ second) ≡ state_after (state_after state first) second }
    ensures steps { (state : State) (first second : List ℕ)
        → load_steps state (first ++ second)
        ≡ load_steps state first ++ load_steps (state_after state first) second }
    ensures answers { (state : State) (flash first second : List ℕ)
        → load_answers state flash (first ++ second)
        ≡ load_answers state flash first
        ++ load_answers (state_after state first) (after_steps flash (load_steps state first)) second }
{}

/// For every cutting of a stream, the state (`state`), the steps (`steps`), the answers (`answers`) and
/// the flash (`flash`) are those of the whole stream.
pub fn streams_are_the_same_in_any_pieces()
    ensures state { (state : State) (pieces : List (List ℕ))
        → pieces_state state pieces ≡ state_after state (concat pieces) }
    ensures steps { (state : State) (pieces : List (List ℕ))
        → pieces_steps state pieces ≡ load_steps state (concat pieces) }
    ensures answers { (state : State) (flash : List ℕ) (pieces : List (List ℕ))
        → pieces_answers state flash pieces ≡ load_answers state flash (concat pieces) }
    ensures flash { (state : State) (flash : List ℕ) (pieces : List (List ℕ))
        → after_steps flash (pieces_steps state pieces)
        ≡ after_steps flash (load_steps state (concat pieces)) }
{}
