//! What readers see, and the operation that replaces it.

ghost use Rattle.std.specs.Prelude.{◌≡◌};
ghost use Rattle.std.specs.Arc.{arc_value};
ghost use Rattle.rbc_snap.specs.Later.{scene_of};

use crate::Sight;
use left_right::Absorb;
use rbc_record::Scene;
use std::alloc::AllocError;
use std::sync::Arc;

/// What is published: a moment of the history, and the scene that it leads to.
#[derive(Drop)]
pub struct Published {
    pub(crate) sight: Sight,
    pub(crate) scene: Arc<Scene>,
    pub ghost is: { arc_value scene ≡ scene_of sight.history },
}

/// A later moment, and its finished scene.
#[derive(Drop)]
pub struct Issue {
    pub(crate) sight: Sight,
    pub(crate) scene: Arc<Scene>,
    pub ghost is: { arc_value scene ≡ scene_of sight.history },
}

impl Absorb<Issue> for Published {
    type State = Sight;

    ghost state = { λ p. p.sight };

    ghost applied = { λ sight op. op.sight };

    fn absorb_first(&mut self, operation: &Issue, _other: &Published) -> Result<(), AllocError> {
        let scene = Arc::try_clone(&operation.scene)?;
        *self = Published {
            sight: operation.sight.again(),
            scene,
        };
        Ok(())
    }
}
