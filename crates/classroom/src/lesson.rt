ghost use Rattle.std.specs.Prelude.{◌≡◌, [], ◌∷◌, None};
ghost use Rattle.sequence.specs.Pouches.{epoch_of, epochs};

use crate::scripts::{self, Turn};
use arc_standard::system::ArcStandard;
use layers::label_set::LabelSet;
use layers::layer::Layer;
use layers::one_root::OneRoot;
use sequence::serving::{run, serve};
use treebank::words::WordCount;
use workbench::workbench::{Ticket, Workbench};

/// Arc-standard with the labels 1 to 3 and at most one arc from the root.
fn course() -> Layer<LabelSet, Layer<OneRoot, ArcStandard>> {
    let mut marks = [false; 200];
    marks[..3].fill(true);
    Layer::new(
        LabelSet::new(marks),
        Layer::new(OneRoot, ArcStandard::new(WordCount::NONE)),
    )
}

/// Lets a place go that holds no ticket.
fn leave(place: Option<Ticket>)
    requires { epoch_of place ≡ None }
{
    match place {
        None => {}
        Some(_ticket) => unreachable!(),
    }
}

/// Lets a pouch go that holds no ticket.
fn put_away(pouch: [Option<Ticket>; 2])
    requires { epochs pouch ≡ None ∷ None ∷ [] }
{
    let [first, second] = pouch;
    leave(first);
    leave(second);
}

/// Serves the scripts in turn on the two workbenches; at the end no ticket is left.
pub(crate) fn hold_lesson() -> [Turn; 4] {
    let mut pouch = [None, None];
    let mut first = scripts::ANN;
    let mut second = scripts::BEN;
    let mut third = scripts::ANN_AGAIN;
    let mut fourth = scripts::BEN_AGAIN;
    let Ok(mut ann) = run(course(), first.requests, &mut pouch, &mut first.replies) else {
        unreachable!()
    };
    let Ok(mut ben) = run(course(), second.requests, &mut pouch, &mut second.replies) else {
        unreachable!()
    };
    let Ok(()) = serve(&mut ann, third.requests, &mut pouch, &mut third.replies) else {
        unreachable!()
    };
    let Ok(()) = serve(&mut ben, fourth.requests, &mut pouch, &mut fourth.replies) else {
        unreachable!()
    };
    put_away(pouch);
    [first, second, third, fourth]
}
