// The refusals of the records with lists, SU, DL, DZ and DF: as they stand in a file, and as they are read into lent buffers.
#![tactic(auto)]

ghost use Rattle.std.specs.Prelude.{◌≡◌, [], ◌∷◌, ◌≤◌};
ghost use Rattle.base.specs.Rules.{refusal};
ghost use Rattle.base.specs.Refusals.{refused_by};
ghost use Rattle.scheme.specs.Setup.{dim, setup_of};
ghost use Rattle.scheme.specs.Calls.{room, table};
ghost use Rattle.record_layouts.specs.Records.{lists_rules, standing_rules, read_setup_rules, read_matrix_rules, dealing_layout, read_dealing_rules};
ghost use Rattle.record_layouts.specs.Records.{zero_layout, read_zero_rules, mapped_layout, read_mapped_rules};
ghost use Rattle.record_layouts.specs.Inner.{list_rules, parts_rules};

use base::Refusal;
use record_layouts::{DEALING_HEAD, MARK_DF, MARK_DL, MARK_DZ, MARK_SU, SETUP_HEAD};
use scheme::Params;

// SU, its matrix read into one of `room` entries.
pub fn check_matrix(s: &[u8], room: usize) -> Result<(), Refusal>
    ensures { refused_by result ≡ refusal (read_matrix_rules s.now room) }
{
    record_layouts::check_due(s, MARK_SU, SETUP_HEAD)?;
    let x = record_layouts::params_at(s);
    scheme::check_limits(x)?;
    let len = x.matrix_len();
    base::refuse_if(s.len() < SETUP_HEAD + 2 * len, Refusal::Length)?;
    scheme::check_size(room, len)?;
    record_words::check_words(s, 5, len, x.p)
}

// SU: as with a matrix of the length needed.
pub fn check_setup(s: &[u8]) -> Result<(), Refusal>
    ensures { refused_by result ≡ refusal (read_setup_rules s.now) }
{
    let len = record_layouts::params_at(s).matrix_len();
    check_matrix(s, len)
}

// g, h with `many` entries, and `more` elements behind them, under a mark, as they stand in a file.
fn check_lists(s: Params, part: &[u8], mark: u16, many: usize, more: usize) -> Result<(), Refusal>
    requires { (many ≤ 131070) × (more ≤ 4294836225) }
    ensures { refused_by result ≡ refusal (list_rules mark many more (setup_of s []) part.now) }
{
    let d = s.dim();
    record_layouts::check_due(part, mark, DEALING_HEAD + 2 * (d + many + more))?;
    record_words::check_words(part, 3, d, s.p)?;
    record_words::check_words(part, 3 + d, many, s.p)?;
    record_words::check_words(part, 3 + d + many, more, s.p)
}

// And then the two numbers.
fn check_parts(s: Params, part: &[u8], mark: u16, many: usize, more: usize) -> Result<(), Refusal>
    requires { (many ≤ 131070) × (more ≤ 4294836225) }
    ensures { refused_by result ≡ refusal (parts_rules mark many more (setup_of s []) part.now) }
{
    check_lists(s, part, mark, many, more)?;
    record_layouts::check_dealing(s, record_layouts::dealing_at(part))
}

// DL, as it stands in a file.
pub fn check_dealing(s: Params, part: &[u8]) -> Result<(), Refusal>
    ensures { refused_by result ≡ refusal (standing_rules dealing_layout (setup_of s []) part.now) }
{
    check_parts(s, part, MARK_DL, s.dim(), 0)
}

// DZ, as it stands in a file.
pub fn check_zero(s: Params, part: &[u8]) -> Result<(), Refusal>
    ensures { refused_by result ≡ refusal (standing_rules zero_layout (setup_of s []) part.now) }
{
    check_parts(s, part, MARK_DZ, s.e as usize, 0)
}

// DF, as it stands in a file.
pub fn check_mapped(s: Params, part: &[u8]) -> Result<(), Refusal>
    ensures { refused_by result ≡ refusal (standing_rules mapped_layout (setup_of s []) part.now) }
{
    check_parts(s, part, MARK_DF, s.dim(), record_layouts::map_len(s))
}

// DF up to its lists, for a file that holds its two numbers against DL's.
pub fn check_mapped_lists(s: Params, part: &[u8]) -> Result<(), Refusal>
    ensures { refused_by result ≡ refusal (lists_rules mapped_layout (setup_of s []) part.now) }
{
    check_lists(s, part, MARK_DF, s.dim(), record_layouts::map_len(s))
}

// The limits, and the buffers lent for g and for h, which has `many` entries.
fn check_lent(s: Params, g_room: usize, h_room: usize, many: usize) -> Result<(), Refusal>
    ensures { refused_by result ≡ refusal (table (setup_of s []) (room g_room (dim (setup_of s [])) ∷ room h_room many ∷ []) []) }
{
    scheme::check_limits(s)?;
    scheme::check_size(g_room, s.dim())?;
    scheme::check_size(h_room, many)
}

// DL, its g and h read into buffers of so many entries.
pub fn check_dealing_lent(
    s: Params,
    part: &[u8],
    g_room: usize,
    h_room: usize,
) -> Result<(), Refusal>
    ensures { refused_by result ≡ refusal (read_dealing_rules (setup_of s []) part.now g_room h_room) }
{
    check_lent(s, g_room, h_room, s.dim())?;
    check_dealing(s, part)
}

// DZ, its g and h read into buffers of so many entries.
pub fn check_zero_lent(s: Params, part: &[u8], g_room: usize, h_room: usize) -> Result<(), Refusal>
    ensures { refused_by result ≡ refusal (read_zero_rules (setup_of s []) part.now g_room h_room) }
{
    check_lent(s, g_room, h_room, s.e as usize)?;
    check_zero(s, part)
}

// DF, its g, h and φ read into buffers of so many entries.
pub fn check_mapped_lent(
    s: Params,
    part: &[u8],
    g_room: usize,
    h_room: usize,
    phi_room: usize,
) -> Result<(), Refusal>
    ensures { refused_by result ≡ refusal (read_mapped_rules (setup_of s []) part.now g_room h_room phi_room) }
{
    check_lent(s, g_room, h_room, s.dim())?;
    scheme::check_size(phi_room, record_layouts::map_len(s))?;
    check_mapped(s, part)
}
