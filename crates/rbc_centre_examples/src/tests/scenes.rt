//! A scene that events happen to, with no record beside it.

use super::telling::{record_of, told_by};
use super::{ONE_TRAIN, PLAIN};
use rbc_model::{Distance, Event, OrMemory, Refusal, Told, TrainId};

/// How far train 1 is to be granted, in metres from its group, and whether it may be: its section has 1,000 metres, and a grant
/// takes none back. Then where its authority ends.
const GRANTS: [(u32, bool, u32); 4] = [
    (600, true, 600),
    (1001, false, 600),
    (599, false, 600),
    (1000, true, 1000),
];

// What a record or a desk does with a scene is a call for each kind of event.
#[test]
fn events_happen_to_a_scene(rt: HostRuntime) {
    let alloc = rt.alloc();
    let empty = record_of(&rt, alloc, PLAIN, &[]);
    let mut scene = empty.begin().copy(alloc).expect(&rt, "room");
    for line in ONE_TRAIN {
        let told = told_by(&rt, scene.track(), line);
        assert!(rt; scene.apply(alloc, &Event::Tell(told)).is_ok(), "{line}");
    }
    let train = TrainId::new(1);
    for (end, is_safe, to) in GRANTS {
        let answer = scene.apply(alloc, &Event::Grant(train, Distance::new(end)));
        let expected = if is_safe {
            Ok(())
        } else {
            Err(OrMemory::Refused(Refusal::NotSafe))
        };
        assert!(rt; answer == expected, "{end}");
        assert!(rt;
            scene
                .book()
                .get(train)
                .is_some_and(|known| known.to() == to),
            "{end}"
        );
    }
    let given_back = Event::Tell(Told::GiveBack(train, Distance::new(700)));
    assert!(rt; scene.apply(alloc, &given_back).is_ok());
    assert!(rt;
        scene
            .book()
            .get(train)
            .is_some_and(|known| known.to() == 700)
    );
    let other = TrainId::new(2);
    let answer = scene.apply(alloc, &Event::Grant(other, Distance::new(800)));
    assert!(rt; answer == Err(OrMemory::Refused(Refusal::UnknownTrain(other))));
}
