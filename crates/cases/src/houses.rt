// Settings other than the paper's: firms beyond the first, and a threshold of 1,000 (Table and outbox, the fresh call).

// Columns: what it shows, the script, what should come of it.
pub(crate) const HOUSES: &str = "\
eight firms, blank: the first             F8 s O500                             Accepted 500 at 10000 for 99999 by ABCD, A live 500-0-0=500 for 99999, B free
eight firms, the second                   F8 s W2 O500                          Accepted 500 at 10000 for 99999 by B, A live 500-0-0=500 for 99999, B free
eight firms, the eighth                   F8 s W8 O500                          Accepted 500 at 10000 for 99999 by H, A live 500-0-0=500 for 99999, B free
eight firms, a ninth: L                   F8 s W9 O500                          Rejected L, A rejected, B free
two firms, blank: the first               F2 s O500                             Accepted 500 at 10000 for 99999 by ABCD, A live 500-0-0=500 for 99999, B free
two firms, the second                     F2 s W2 O500                          Accepted 500 at 10000 for 99999 by B, A live 500-0-0=500 for 99999, B free
two firms, the eighth: L                  F2 s W8 O500                          Rejected L, A rejected, B free
threshold 1,000: shares 999               V1000 s O999                          Accepted 999 at 10000 for 99999 by ABCD, A live 999-0-0=999 for 99999, B free
threshold 1,000: shares 1,000: Z          V1000 s O1000                         Rejected Z, A rejected, B free
threshold 1,000: Replace 999              V1000 s O500 e100 U999                Replaced 899, A dead 100-100-0=0, B live 999-100-0=899 for 99999
threshold 1,000: Replace 1,000            V1000 s O500 e100 U1000               Canceled 400, A dead 100-100-0=0, B free
";
