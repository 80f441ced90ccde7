//! What nodes send each other: bundles, feeds, and histories that rejoin.
ghost use Rattle.std.specs.Prelude.{◌≡◌, ◌↔◌, ◌≤◌, ℕ, List, [], ◌++◌, length, false};
ghost use Rattle.std.specs.List.{AllByRecursion, flat_map};
ghost use Rattle.depot_base.specs.declared.limits.TheConstants.{MOST_FRAMES};
ghost use Rattle.depot_base.specs.declared.record.Record.{Record};
ghost use Rattle.depot_model.specs.declared.hello.Hello.{Hello};
ghost use Rattle.depot_model.specs.texts.Texts.{IsRoster};
ghost use Rattle.depot_model.specs.checks.Checks.{Setting};
ghost use Rattle.depot_model.specs.journals.Lawful.{IsLawful, is_empty};
ghost use Rattle.depot_model.specs.exchange.Hello.{IsHello, hello_of};
ghost use Rattle.depot_model.specs.texts.Frames.{Frame, text_of_frame, IsFrame, whole_frame, open_frame, no_frame, frame_at};
ghost use Rattle.depot_model.specs.exchange.Bundle.{Signs, bundle_of};
ghost use Rattle.depot_model.specs.exchange.Feeding.{Feeding, fed};
ghost use Rattle.depot_model.specs.worlds.World.{Correct, World, IsWorld, IsAuthentic, IsCollisionFree};
ghost use Rattle.depot_laws.specs.Streams.{fed_pieces, fed_frames, StaysOpen, AreBytes, IsInOrder, BeginsWith, IsBegun};
ghost use Rattle.depot_laws.specs.Rejoin.{updates_sent, Hears, ComeInOrder, SendsAll, Meet, Rejoins};

/// The hello of a lawful journal has a text: it names at most 256 convicted nodes, 4,097 leaves and 1,024 wanted hashes, each in
/// rising order.
pub fn hellos_have_a_text()
    ensures { (here : Setting) (J : List Record) → IsRoster here.listed → IsLawful here J → is_empty J ≡ false → IsHello (hello_of here J) }
{}

/// A feed takes a stream as one, however it is cut into pieces. It takes the bytes of whole frames frame by frame, in
/// order, as long as it is neither closed nor over before the last of them.
pub fn feeds_take_frames()
    ensures pieces { (here : Setting) (s : Feeding) (pieces : List (List ℕ)) → fed_pieces here s pieces ≡ fed here s (flat_map (λ p. p) pieces) }
    ensures frames { (here : Setting) (s : Feeding) (fs : List Frame) → AllByRecursion IsFrame fs → s.begun ≡ [] → StaysOpen here s fs → fed here s (flat_map text_of_frame fs) ≡ fed_frames here s fs }
{}

/// What is at a place of a stream is reported at the first byte that decides it: a whole frame exactly where the bytes
/// begin with its text, an open one exactly where the bytes begin a frame's text, and no frame exactly where no further
/// bytes make one.
pub fn frames_are_told_at_once()
    ensures whole { (bytes : List ℕ) (f : Frame) → AreBytes bytes → (frame_at bytes ≡ whole_frame f ↔ BeginsWith bytes f) }
    ensures begun { (bytes : List ℕ) → AreBytes bytes → (frame_at bytes ≡ open_frame ↔ IsBegun bytes) }
    ensures none { (bytes : List ℕ) → AreBytes bytes → (frame_at bytes ≡ no_frame ↔ ((f : Frame) (more : List ℕ) → BeginsWith (bytes ++ more) f → ⊥)) }
{}

/// Whatever bytes a feed is given, a lawful journal stays lawful.
pub fn feeds_keep_journals_lawful()
    ensures { (here : Setting) (s : Feeding) (bytes : List ℕ) → AreBytes bytes → IsInOrder here s → IsInOrder here (fed here s bytes) }
{}

/// A bundle of a lawful journal has no more frames than a stream may have, which is 524,288 with End, whatever hello it
/// is for and whether it leaves something out or not. So no feed of it is over before its last frame.
pub fn bundles_fit_a_stream()
    ensures { (here : Setting) (sign : Signs) (J : List Record) (h : Hello) → IsLawful here J → length (bundle_of here.me sign J h).frames ≤ MOST_FRAMES }
{}

/// Where a bundle doesn't say that there is more, each update that its sender had accepted is one that the reader has
/// accepted or the bundle sends. Each parent of an update that it sends the reader has accepted, or the bundle sends
/// earlier, whether it leaves something out or not. So what a bundle sends never waits for something else. This assumes
/// that no correct node's signature was forged, and that no two hashed texts collide.
pub fn bundles_are_closed()
    ensures left { (W : World) (a v : Correct) (sign : Signs) (P J : List Record) → IsWorld W → IsAuthentic W → IsCollisionFree W → Hears W a v P J → SendsAll W a v sign P J }
    ensures parents { (W : World) (a v : Correct) (sign : Signs) (P J : List Record) → IsWorld W → IsAuthentic W → IsCollisionFree W → Hears W a v P J → ComeInOrder a (updates_sent W a sign P J) }
{}

/// Histories rejoin. Let a node take, in whatever pieces, all of a bundle that another made for its hello, and meet no
/// limit. Then it has accepted all that both had; no frame was refused and the stream was whole; it holds each value
/// that the sender held for an update which it sent; and of each two statements of others that contradict each other it
/// has convicted the writer. Both nodes may have gone on in between, the reader since its hello and the sender since
/// its bundle. This assumes that the bundle left nothing out, that no correct node's signature was forged, and that no
/// two hashed texts collide.
pub fn rejoin_law()
    ensures { (W : World) (a v : Correct) (sign : Signs) (P J : List Record) → IsWorld W → IsAuthentic W → IsCollisionFree W → Meet W a v sign P J → Rejoins W a v sign P J }
{}
