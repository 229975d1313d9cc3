//! What has a name, and where a name stands among several.
ghost use Rattle.std.specs.Prelude.{◌≡◌, map};
ghost use Rattle.script_rules.specs.Drafts.{place_of_name};
ghost use Rattle.script_rules.specs.Reasons.{is_among};

use dpc_model::operators::OpSpec;
use dpc_model::plans::{ClientSpec, FragSpec, SourceSpec};

/// What has a name.
pub trait Named: Drop {
    ghost use Rattle.std.specs.Prelude.{◌≡◌, ℕ, List};

    ghost name: { Self → List ℕ };

    /// Its name.
    fn name(&self) -> &[u8]
        ensures { result.now ≡ name self.now };
}

impl Named for SourceSpec {
    ghost use Rattle.dpc_model.specs.declared.plans.SourceSpec.{SourceSpec};

    ghost name = { λ (s : SourceSpec). s.name };

    #[inline]
    fn name(&self) -> &[u8] {
        self.name.as_slice()
    }
}

impl Named for FragSpec {
    ghost use Rattle.dpc_model.specs.declared.plans.FragSpec.{FragSpec};

    ghost name = { λ (f : FragSpec). f.name };

    #[inline]
    fn name(&self) -> &[u8] {
        self.name.as_slice()
    }
}

impl Named for ClientSpec {
    ghost use Rattle.dpc_model.specs.declared.plans.ClientSpec.{ClientSpec};

    ghost name = { λ (c : ClientSpec). c.name };

    #[inline]
    fn name(&self) -> &[u8] {
        self.name.as_slice()
    }
}

impl Named for OpSpec {
    ghost use Rattle.dpc_model.specs.declared.operators.OpSpec.{OpSpec};

    ghost name = { λ (op : OpSpec). op.name };

    #[inline]
    fn name(&self) -> &[u8] {
        self.name.as_slice()
    }
}

/// The place of the first one of that name.
pub fn place_of<T: Named>(name: &[u8], all: &[T]) -> Option<u64>
    ensures { result ≡ place_of_name name.now (map T.name all.now) }
{
    for (i, one) in all.iter().enumerate() {
        if name == one.name() {
            return Some(i as u64);
        }
    }
    None
}

/// Whether one of them has that name.
pub fn has_name<T: Named>(name: &[u8], all: &[T]) -> bool
    ensures { result ≡ is_among name.now (map T.name all.now) }
{
    place_of(name, all).is_some()
}
