// Two archives behind a no, in cases worked out from document 02. The values are the desk's choice, so none is compared: the rows are
// judged by the answers of the views and of the query. A line is printed for each case in which the desk says another, or gives other
// rows, and at the end the number of cases.

#![tactic(auto)]

mod compare;
mod policies;
mod refusals;
mod rows;
mod told;

fn main() {
    let p = test_expect::example();
    let mut n = told::example(p, 0);
    n = told::lines_and_joins(p, n);
    n = told::hiding(policies::hiding(), n);
    n = told::without_views(test_expect::wider(), n);
    n = told::constants(policies::constants(), n);
    n = told::long_constants(policies::long_constants(), n);
    n = told::forty(policies::forty(), n);
    n = told::settled_ones(p, n);
    n = refusals::partitions(p, n);
    n = refusals::rooms(p, n);
    n = refusals::texts(p, n);
    n = refusals::orders(p, test_expect::altered(), n);
    io::print_decimal(1, n);
    io::write_all(1, b" cases\n");
}
