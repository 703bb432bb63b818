//! What the tellings of calls come to in a session: laws, each the contract of a function that does
//! nothing. A caller that cites one calls it.

ghost use Rattle.std.specs.Prelude.{◌≡◌, ◌≤◌, ◌<◌, ◌*◌, ◌-◌, ◌++◌, ◌∷◌, [], ℕ, List, length};
ghost use Rattle.std.specs.Prelude.{map, min, Ok, Err};
ghost use Rattle.std.specs.List.{All, AllZip};
ghost use Rattle.claim_rule.specs.Claims.{tick_of};
ghost use Rattle.claim_rule.specs.declared.plan.Plan.{Plan};
ghost use Rattle.claim_rule.specs.declared.view.Draw.{Draw};
ghost use Rattle.claim_word.specs.Claims.{IsDrawn, IsLast, IsLate, number_of};
ghost use Rattle.claim_word.specs.Endings.{draws_in};
ghost use Rattle.claim_word.specs.Faces.{IsPassOf, PassFace, TableFace};
ghost use Rattle.claim_word.specs.declared.worker.Claim.{Claim};
ghost use Rattle.input_cells.specs.Agreement.{Agrees};
ghost use Rattle.input_cells.specs.Faces.{InputFace, IsReadOf, SeatFace, heard_of, looks_of};
ghost use Rattle.input_cells.specs.Faces.{unread};
ghost use Rattle.input_cells.specs.Looking.{HasTickEach};
ghost use Rattle.input_cells.specs.Shapes.{IsTableOf};
ghost use Rattle.session_laws.specs.Facts.{Gathering, IsWorked, Made, draws_of};
ghost use Rattle.session_laws.specs.Facts.Gathering.{GatherClosed, GatherFree};
ghost use Rattle.session_laws.specs.Steps.{IsSeenBefore};
ghost use Rattle.io_caps.specs.declared.device.DeviceParts.{DeviceParts};
ghost use Rattle.map_entry.specs.Setup.{SetupParts};
ghost use Rattle.packet_writer.specs.Flags.{Sights};
ghost use Rattle.packet_writer.specs.Packet.{Blocks};
ghost use Rattle.book_words.specs.declared.history.ClaimItem.{ClaimItem};
ghost use Rattle.packet_worker.specs.Faces.{IsWorkerOf, WorkerFace};
ghost use Rattle.packet_worker.specs.Gathering.{EndsClosed, EndsFree, KnowsOn, item_of};
ghost use Rattle.packet_worker.specs.Jobs.{IsAllMade, IsDue, IsUnseen, unsent_item};
ghost use Rattle.packet_worker.specs.Told.{Tells};
ghost use Rattle.packet_worker.specs.declared.gathered.Gathered.{Gathered};
ghost use Rattle.input_cells.specs.declared.looking.StillOpen.{StillOpen};

/// A worker's job goes on from call to call, until all packets that it drew have their claims. A
/// packet with flags in closed form serves in free form too, and so does one that was not gathered,
/// with no block found, where none is to be.
pub fn jobs_go_on()
    ensures begun { (g : Gathering) (w : WorkerFace) → w.pass.view.draws ≡ [] → IsAllMade g w [] }
    ensures drawn { (g : Gathering) (w x : WorkerFace) (c : Claim) (items : List ClaimItem)
        → IsAllMade g w items → x ≡ record w { pass = x.pass }
        → IsDrawn w.pass x.pass (number_of w.pass.view.plan c) → IsLast x.pass.view c
        → IsDue g x c items }
    ensures over { (g : Gathering) (w x : WorkerFace) (items : List ClaimItem)
        → IsAllMade g w items → x ≡ record w { pass = x.pass } → IsLate w.pass x.pass
        → IsAllMade g x items }
    ensures open { (g : Gathering) (t : TableFace) (inputs : List InputFace) (c : Claim)
        (e : StillOpen) (w x : WorkerFace) (items : List ClaimItem) → IsDue g w c items
        → EndsClosed t inputs c (Err e) w x → IsDue g x c items }
    ensures closed { (t : TableFace) (inputs : List InputFace) (c : Claim) (got : Gathered)
        (w x : WorkerFace) (items : List ClaimItem) → IsDue GatherClosed w c items
        → EndsClosed t inputs c (Ok got) w x
        → IsAllMade GatherClosed x (items ++ item_of c got ∷ []) }
    ensures free { (seen : Sights) (t : TableFace) (inputs : List InputFace) (c : Claim)
        (got : Gathered) (w x : WorkerFace) (items : List ClaimItem)
        → IsDue (GatherFree seen) w c items → EndsFree t inputs c got w x
        → IsSeenBefore w.setup seen (looks_of w.reads) c.k
        → IsAllMade (GatherFree seen) x (items ++ item_of c got ∷ []) }
    ensures closed_free { (seen : Sights) (t : TableFace) (inputs : List InputFace) (c : Claim)
        (got : Gathered) (w x : WorkerFace) (items : List ClaimItem)
        → IsDue (GatherFree seen) w c items → EndsClosed t inputs c (Ok got) w x
        → IsSeenBefore x.setup seen (looks_of x.reads) c.k
        → IsAllMade (GatherFree seen) x (items ++ item_of c got ∷ []) }
    ensures unsent { (seen : Sights) (w : WorkerFace) (c : Claim) (items : List ClaimItem)
        → IsDue (GatherFree seen) w c items → IsLast w.pass.view c → IsUnseen seen w c
        → IsAllMade (GatherFree seen) w (items ++ unsent_item w c ∷ []) }
    ensures paced { (g : Gathering) (w x : WorkerFace) (c : Claim) (items : List ClaimItem)
        → x ≡ record w { reads = x.reads } → KnowsOn w x
        → (IsAllMade g w items → IsAllMade g x items) × (IsDue g w c items → IsDue g x c items) }
{}

/// What the ends of both tables tell of all workers' jobs: their draws are those of the table of
/// claims, whether it was drawn to its end or not, and the blocks agree with what each of them saw.
pub fn ends_are_told()
    ensures in_part { (s : SetupParts) (g : Gathering) (from packets drawn : ℕ) (m : Made)
        → All (λ d. d.number < drawn) m.draws → IsWorked s g from packets m
        → IsWorked s g from (min drawn packets) m }
    ensures joined { (passes : List PassFace) (made : List Made)
        → AllZip (λ p m. m.draws ≡ p.view.draws) passes made
        → draws_of made ≡ draws_in passes }
    ensures agree { (d : DeviceParts) (blocks : Blocks) (readers : List (List SeatFace))
        (made : List Made) → AllZip Tells readers made
        → All (λ r. Agrees d (looks_of r) (heard_of r) blocks) readers
        → All (λ m. Agrees d m.looks m.heard blocks) made }
{}

/// A worker is of tables of its setup, of which its passes are, where it has looked at nothing yet.
pub fn workers_are_of_tables()
    ensures { (table : TableFace) (inputs : List InputFace) (w : WorkerFace) (first ticks : ℕ)
        → IsPassOf table w.pass → table.plan.setup ≡ w.setup
        → IsTableOf w.setup.device first ticks inputs → IsReadOf inputs w.reads
        → w.reads ≡ map unread inputs → IsWorkerOf table inputs w }
{}

/// An input table has the ticks of all claims of a claim table that begins with the same tick and
/// has as many ticks.
pub fn claims_have_ticks()
    ensures { (plan : Plan) (inputs : List InputFace) (first ticks number : ℕ)
        → IsTableOf plan.setup.device first ticks inputs
        → plan.setup.device.base ≤ first
        → plan.from ≡ (first - plan.setup.device.base) * length plan.setup.device.outputs
        → plan.packets ≡ ticks * length plan.setup.device.outputs → number < plan.packets
        → HasTickEach inputs (tick_of plan number) }
{}
