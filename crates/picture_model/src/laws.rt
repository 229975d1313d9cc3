//! What holds of every picture.
ghost use Rattle.std.specs.Prelude.{◌≡◌, ◌∷◌, [], ◌++◌, true, List, length};
ghost use Rattle.std.specs.List.{count_by, list_all};
ghost use Rattle.dpc_model.specs.declared.messages.Event.{Event};
ghost use Rattle.dpc_model.specs.declared.plans.Plan.{Plan};
ghost use Rattle.dpc_model.specs.declared.scripts.Script.{Script};
ghost use Rattle.world_model.specs.Events.{is_phase};
ghost use Rattle.world_model.specs.Worlds.{run};
ghost use Rattle.picture_model.specs.Counting.{is_numbered};
ghost use Rattle.picture_model.specs.Drawing.{blank, drawn, drawing, picture_of, whole_picture};

/// Before the first event nothing is drawn, and each event goes on with what those before it drew, by the world as it
/// was before: so code that watches a run can draw.
pub fn a_drawing_goes_on_with_a_run()
    ensures none { (plan : Plan) → drawing plan [] ≡ blank plan }
    ensures next { (plan : Plan) (events : List Event) (e : Event)
        → drawing plan (events ++ e ∷ []) ≡ drawn plan (run plan events) e (drawing plan events) }
{}

/// A picture has a column for each phase that was opened, where phases have numbers from 1.
pub fn each_phase_has_a_column()
    ensures { (plan : Plan) (events : List Event) → list_all is_numbered events ≡ true
        → length (picture_of plan events) ≡ count_by is_phase events }
{}

/// So has one with what its script loses and repeats.
pub fn losses_add_no_column()
    ensures { (script : Script) (events : List Event)
        → length (whole_picture script events) ≡ length (picture_of script.plan events) }
{}
