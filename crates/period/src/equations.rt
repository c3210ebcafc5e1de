// The equations, one function for each. What they take is what is known by then: errors come before Θ, and Θ before the products.
ghost use Rattle.std.specs.Prelude.{◌≡◌, ℕ, ◌*◌, ◌<◌, pos, ◌*ℤ◌, slice_index_or};
ghost use Rattle.file.specs.File.{entry};
ghost use Rattle.file.specs.Layout.{columns as columns_of, rows as rows_of};
ghost use Rattle.file.specs.Tables.{data_of};
ghost use Rattle.file.specs.declared.layout.Table.TheVariants.{Upsilon};
ghost use Rattle.period.specs.Equations.{error as error_of, error_term as error_term_of, row_product as row_product_of, theta as theta_of, weight_term as weight_term_of};
ghost use Rattle.period.specs.Sums.{Filled, sum_to};

use crate::inputs::Inputs;
use crate::rows::{Errors, Levels, Thetas, first_rows};
use crate::sums::{add_product, rounded, rounded_dot};
use file::layout::Table;
use file::tables::Tables;

// e in row r.
fn error(inputs: &Inputs, r: usize) -> i32
    requires { r < 2 * (data_of inputs.now.tables.now).horizon }
    ensures { result ≡ error_of (data_of inputs.now.tables.now) inputs.now.currents.now inputs.now.references.now r }
{
    let Inputs {
        tables,
        currents,
        references,
    } = *inputs;
    rounded_dot(tables.row(Table::Gamma, r), currents) - references[r]
}

// The errors of all rows.
pub(crate) fn errors(inputs: &Inputs) -> Errors
    ensures { Filled 10 (2 * (data_of inputs.now.tables.now).horizon) (error_of (data_of inputs.now.tables.now) inputs.now.currents.now inputs.now.references.now) result.values }
{
    let rows = 2 * inputs.tables.horizon().stages();
    Errors {
        values: first_rows(rows, |r| error(inputs, r)),
    }
}

// The errors' part of Θ in row j, from column j of Υ.
fn error_term(tables: &Tables, errors: &Errors, j: usize) -> i32
    requires { j < 3 * (data_of tables.now).horizon }
    ensures { result ≡ error_term_of (data_of tables.now) (λ r. slice_index_or errors.now.values r (pos 0)) j }
{
    let rows = 2 * tables.horizon().stages();
    // a `for`, since the library bounds no partial sum of a `sum` of signed numbers
    let mut sum = 0;
    for (r, error) in errors.values[..rows].iter().enumerate() {
        sum = add_product(sum, tables.row(Table::Upsilon, r)[j], *error);
    }
    rounded(sum) as i32
}

// The weight's part of Θ in row j.
fn weight_term(tables: &Tables, levels: &Levels, j: usize) -> i32
    ensures { result ≡ weight_term_of (data_of tables.now) levels.now.values j }
{
    if j < 3 {
        tables.weight() * levels.values[j]
    } else {
        0
    }
}

// Θ in row j.
fn theta(tables: &Tables, errors: &Errors, levels: &Levels, j: usize) -> i32
    requires { j < 3 * (data_of tables.now).horizon }
    ensures { result ≡ theta_of (data_of tables.now) (λ r. slice_index_or errors.now.values r (pos 0)) levels.now.values j }
{
    error_term(tables, errors, j) - weight_term(tables, levels, j)
}

// Θ in all rows.
pub(crate) fn thetas(tables: &Tables, errors: &Errors, levels: &Levels) -> Thetas
    ensures { Filled 15 (3 * (data_of tables.now).horizon) (theta_of (data_of tables.now) (λ r. slice_index_or errors.now.values r (pos 0)) levels.now.values) result.values }
{
    let rows = 3 * tables.horizon().stages();
    Thetas {
        values: first_rows(rows, |j| theta(tables, errors, levels, j)),
    }
}

// Row j of a square table times Θ.
fn row_product(tables: &Tables, table: Table, thetas: &Thetas, j: usize) -> i32
    requires row { j < rows_of table (data_of tables.now).horizon }
    requires columns { columns_of table (data_of tables.now).horizon j ≡ 3 * (data_of tables.now).horizon }
    ensures { result ≡ row_product_of (data_of tables.now) table (λ k. slice_index_or thetas.now.values k (pos 0)) j }
{
    rounded_dot(tables.row(table, j), &thetas.values)
}

// All rows of a square table times Θ.
pub(crate) fn row_products(tables: &Tables, table: Table, thetas: &Thetas) -> [i32; 15]
    requires rows { rows_of table (data_of tables.now).horizon ≡ 3 * (data_of tables.now).horizon }
    requires columns { (j : ℕ) → columns_of table (data_of tables.now).horizon j ≡ 3 * (data_of tables.now).horizon }
    ensures { Filled 15 (3 * (data_of tables.now).horizon) (row_product_of (data_of tables.now) table (λ k. slice_index_or thetas.now.values k (pos 0))) result }
{
    let rows = 3 * tables.horizon().stages();
    first_rows(rows, |j| row_product(tables, table, thetas, j))
}
