ghost use Rattle.std.specs.Prelude.{◌≡◌, ◌<◌, length};
ghost use Rattle.base_use_order.specs.Uses.{table_of, used_by};

/// What the definition uses.
pub(crate) fn used_of(uses: &[Vec<usize>], definition: usize) -> &[usize]
    requires { definition < length uses.now }
    ensures { result.now ≡ used_by (table_of uses.now) definition }
{
    uses[definition].as_slice()
}
