//! The words that the program takes, as `clap` reads them, and their help.

ghost use Rattle.std.specs.Prelude.{◌≡◌, IfOk, codes, false, map};
ghost use Rattle.clap.specs.Words.{app_of, with_rule};
ghost use Rattle.clap.specs.declared.builder.command.Command.TheViews.{out-Command};
ghost use Rattle.wh_words.specs.CommandLine.{operand, optional_operand, option_of, flag_of, repeated_operand, repeated_option, operands_app, subcommand_app, with_commands, with_more, top_app, program_app};
ghost use Rattle.wh_words.specs.declared.app.More.TheVariants as variants;

use clap::{Arg, ArgAction, Command};
use std::alloc::{AllocError, Global};

/// What a command takes beside operands that it can't do without.
#[derive(Clone, Copy, Drop)]
enum More<'a> {
    Nothing,
    /// An option for a policy.
    Policy,
    /// An operand that can be left out: its name and its help.
    Optional(&'a str, &'a str),
    /// The columns, the conditions and the form of a query.
    Columns,
}

/// A command: its name and help, and the operands that it can't do without, each with a name and a help.
struct Subcommand<'a> {
    name: &'a str,
    about: &'a str,
    example: &'a str,
    operands: &'a [(&'a str, &'a str)],
    more: More<'a>,
}

/// The help of the program, in which its words stand in groups.
const HELP: &str = "\
wh keeps what a shop sells in one SQLite file: a star schema with slowly changing dimensions.
Batches of products, stores, customers and sales may come late, twice or broken; the file always
holds just the tables that the accepted ones define.

Usage: wh <COMMAND>

Make and load:
  init     Makes a warehouse
  load     Loads a batch into a warehouse
  migrate  Puts a newer policy in force
  upgrade  Turns a warehouse into format 2, which has discounts and voids
  deliver  Sends the commands of a manifest, in order

Look:
  report   Prints what was sold, by an attribute
  query    Prints what was sold, by one to six attributes, for a slice of the sales
  reports  Prints the reports of a list, over one open of the warehouse
  queries  Answers the queries of a list, over one open of the warehouse
  records  Prints the records that carry a dimension's members to another file, as a batch
  dump     Prints a table of a warehouse as CSV
  views    Prints the SQL of views that have the names of the attributes
  status   Prints how much a warehouse holds
  session  Answers commands from standard input over one open of the file

Check:
  explain  Says whether a file would be accepted and, if not, where and why
  plan     Prints what a load, a migration or an upgrade would write, and writes nothing
  trial    Prints the table that one batch would give, without a warehouse
  check    Says whether a warehouse is exactly what its commands define

Options:
  -h, --help     Print help; `wh help COMMAND` prints that of a command
  -V, --version  Print version

Example:
  wh init shop.wh examples/shop/policy.toml
  wh load shop.wh product p1 examples/shop/products-1.csv
  wh load shop.wh sales s1 examples/shop/sales-1.csv
  wh report shop.wh product.brand was 2024-01-01 2024-12-31
  wh check shop.wh
";

/// The version, with the formats that it reads.
const VERSION: &str = "1.0.0, reads warehouse formats 1 and 2";

const FILE: (&str, &str) = ("FILE", "the warehouse, a file that `wh init` made");

const ID: (&str, &str) = (
    "ID",
    "an id of your choice, unique in this warehouse: 1 to 40 letters, digits, -, _ or .",
);

const CSV: (&str, &str) = (
    "CSV",
    "the batch, a CSV file with a header: at most 5,000 records and 1,000,000 bytes",
);

/// All commands: first those that have more than operands, then the others in the groups of the help.
const SUBCOMMANDS: &[Subcommand<'static>] = &[
    Subcommand {
        name: "trial",
        about: "Prints the table that one batch would give, without a warehouse",
        example: "Example: wh trial product examples/products.csv",
        operands: &[("DIMENSION", "product, store or customer"), CSV],
        more: More::Policy,
    },
    Subcommand {
        name: "explain",
        about: "Says whether a file would be accepted and, if not, where and why",
        example: "Example: wh explain shop.wh sales examples/shop/torn.csv",
        operands: &[
            (
                "FILE",
                "the warehouse, a file that `wh init` made; for init any name, and no file is opened",
            ),
            (
                "KIND",
                "product, store, customer, sales, void, init, migrate or upgrade",
            ),
        ],
        more: More::Optional(
            "INPUT",
            "the batch's file, or the policy's; leave it out to print the header and what each column may hold, or the rules of a policy",
        ),
    },
    Subcommand {
        name: "records",
        about: "Prints the records that carry a dimension's members to another file, as a batch",
        example: "Example: wh records shop.wh product",
        operands: &[FILE, ("DIMENSION", "product, store or customer")],
        more: More::Optional(
            "FROM",
            "how many records came so far, so that the next part begins behind them; leave it out for the first",
        ),
    },
    Subcommand {
        name: "query",
        about: "Prints what was sold, by one to six attributes, for a slice of the sales",
        example: "Example: wh query shop.wh 2024-01-01 2024-12-31 product.brand date.month --where store.city:was=Bern",
        operands: &[
            FILE,
            ("FROM", "the first day of sale, as 2024-01-31"),
            ("TO", "the last day of sale, as 2024-12-31"),
        ],
        more: More::Columns,
    },
    Subcommand {
        name: "init",
        about: "Makes a warehouse",
        example: "Example: wh init shop.wh examples/shop/policy.toml",
        operands: &[
            ("FILE", "the file to make; it must not be a warehouse yet"),
            ("POLICY", "the policy, a TOML file"),
        ],
        more: More::Nothing,
    },
    Subcommand {
        name: "load",
        about: "Loads a batch into a warehouse",
        example: "Example: wh load shop.wh product p1 examples/shop/products-1.csv",
        operands: &[
            FILE,
            ("KIND", "product, store, customer, sales or void"),
            ID,
            (
                "CSV",
                "the batch, a CSV file with a header: at most 5,000 records and 1,000,000 bytes; tickets differ over all shops and years",
            ),
        ],
        more: More::Nothing,
    },
    Subcommand {
        name: "migrate",
        about: "Puts a newer policy in force",
        example: "Example: wh migrate shop.wh m1 examples/shop/overwritten.toml",
        operands: &[
            FILE,
            ID,
            (
                "POLICY",
                "the new policy, a TOML file; it must keep all names and years",
            ),
        ],
        more: More::Nothing,
    },
    Subcommand {
        name: "upgrade",
        about: "Turns a warehouse into format 2, which has discounts and voids",
        example: "Example: wh upgrade shop.wh u1",
        operands: &[FILE, ID],
        more: More::Nothing,
    },
    Subcommand {
        name: "deliver",
        about: "Sends the commands of a manifest, in order",
        example: "Example: wh deliver shop.wh examples/shop/nights.csv",
        operands: &[
            FILE,
            (
                "MANIFEST",
                "the commands, a CSV file without a header; each line is KIND,ID,INPUT",
            ),
        ],
        more: More::Nothing,
    },
    Subcommand {
        name: "report",
        about: "Prints what was sold, by an attribute",
        example: "Example: wh report shop.wh product.brand was 2024-01-01 2024-12-31",
        operands: &[
            FILE,
            (
                "ATTRIBUTE",
                "product.NAME, store.NAME, customer.NAME, date.month or date.holiday",
            ),
            (
                "MODE",
                "was: as things were on the day of sale; is: as they are now; prior: as they were before",
            ),
            ("FROM", "the first day of sale, as 2024-01-31"),
            ("TO", "the last day of sale, as 2024-12-31"),
        ],
        more: More::Nothing,
    },
    Subcommand {
        name: "reports",
        about: "Prints the reports of a list, over one open of the warehouse",
        example: "Example: wh reports shop.wh examples/shop/reports.csv",
        operands: &[
            FILE,
            (
                "LIST",
                "the reports, a CSV file without a header; each line is ATTRIBUTE,MODE,FROM,TO",
            ),
        ],
        more: More::Nothing,
    },
    Subcommand {
        name: "queries",
        about: "Answers the queries of a list, over one open of the warehouse",
        example: "Example: wh queries shop.wh examples/shop/queries.txt",
        operands: &[
            FILE,
            (
                "LIST",
                "the queries, a text file; each line is the words of a query without FILE, as for `wh session`",
            ),
        ],
        more: More::Nothing,
    },
    Subcommand {
        name: "dump",
        about: "Prints a table of a warehouse as CSV",
        example: "Example: wh dump shop.wh product",
        operands: &[
            FILE,
            (
                "TABLE",
                "meta, command, member, change, product, store, customer, profile, calendar, fact, fact2 or void",
            ),
        ],
        more: More::Nothing,
    },
    Subcommand {
        name: "views",
        about: "Prints the SQL of views that have the names of the attributes",
        example: "Example: sqlite3 -readonly shop.wh \"$(wh views shop.wh) SELECT * FROM sales_as_is\"",
        operands: &[FILE],
        more: More::Nothing,
    },
    Subcommand {
        name: "status",
        about: "Prints how much a warehouse holds",
        example: "Example: wh status shop.wh",
        operands: &[FILE],
        more: More::Nothing,
    },
    Subcommand {
        name: "session",
        about: "Answers commands from standard input over one open of the file",
        example: "Example: echo status | wh session shop.wh",
        operands: &[FILE],
        more: More::Nothing,
    },
    Subcommand {
        name: "plan",
        about: "Prints what a load, a migration or an upgrade would write, and writes nothing",
        example: "Example: wh plan shop.wh product p3 examples/shop/late.csv",
        operands: &[
            FILE,
            (
                "KIND",
                "product, store, customer, sales, void, migrate or upgrade",
            ),
            ID,
            (
                "INPUT",
                "the batch's file, or the new policy's; for an upgrade, any word (no file is read)",
            ),
        ],
        more: More::Nothing,
    },
    Subcommand {
        name: "check",
        about: "Says whether a warehouse is exactly what its commands define",
        example: "Example: wh check shop.wh",
        operands: &[FILE],
        more: More::Nothing,
    },
];

/// `command` with one operand more, which it can't do without.
fn with_operand<'a>(
    alloc: Global,
    command: Command<'a>,
    name: &'a str,
    help: &'a str,
) -> Result<Command<'a>, AllocError>
    requires local { (out-Command command).has_globals ≡ false }
    ensures app { IfOk result (λ c.
        app_of c ≡ with_rule (app_of command.entry) (operand name.entry.now)) }
    ensures local { IfOk result (λ c. (out-Command c).has_globals ≡ false) }
{
    command.arg(Arg::new(alloc, name).required(true).help(help))
}

/// `command` with one operand more, which can be left out.
fn with_optional_operand<'a>(
    alloc: Global,
    command: Command<'a>,
    name: &'a str,
    help: &'a str,
) -> Result<Command<'a>, AllocError>
    requires local { (out-Command command).has_globals ≡ false }
    ensures app { IfOk result (λ c. app_of c ≡ with_rule (app_of command.entry) (optional_operand name.entry.now)) }
    ensures local { IfOk result (λ c. (out-Command c).has_globals ≡ false) }
{
    command.arg(Arg::new(alloc, name).help(help))
}

/// The command with the operands that it can't do without.
fn operands_app<'a>(alloc: Global, subcommand: &Subcommand<'a>) -> Result<Command<'a>, AllocError>
    ensures app { IfOk result (λ c. app_of c ≡ operands_app subcommand.now) }
    ensures local { IfOk result (λ c. (out-Command c).has_globals ≡ false) }
{
    let mut command = Command::new(alloc, subcommand.name)
        .about(subcommand.about)
        .after_help(subcommand.example);
    for (name, help) in subcommand.operands {
        command = with_operand(alloc, command, name, help)?;
    }
    Ok(command)
}

/// `command` with an option for a policy.
fn with_policy<'a>(alloc: Global, command: Command<'a>) -> Result<Command<'a>, AllocError>
    requires local { (out-Command command).has_globals ≡ false }
    ensures app { IfOk result (λ c. app_of c ≡ with_rule (app_of command.entry) (option_of (codes "POLICY") (codes "policy"))) }
    ensures local { IfOk result (λ c. (out-Command c).has_globals ≡ false) }
{
    let policy = Arg::new(alloc, "POLICY").long("policy").help(
        "the policy, a TOML file; leave it out for one with a few attributes",
    );
    command.arg(policy)
}

/// `command` with the columns of a query, which are given one after the other.
fn with_columns<'a>(alloc: Global, command: Command<'a>) -> Result<Command<'a>, AllocError>
    requires local { (out-Command command).has_globals ≡ false }
    ensures app { IfOk result (λ c. app_of c ≡ with_rule (app_of command.entry) (repeated_operand (codes "BY"))) }
    ensures local { IfOk result (λ c. (out-Command c).has_globals ≡ false) }
{
    let by = Arg::new(alloc, "BY")
        .required(true)
        .action(ArgAction::Append);
    command.arg(by.help(
        "a column: ATTRIBUTE or ATTRIBUTE:MODE, as in `wh report`; without a MODE it is was, where the type has it, and else is",
    ))
}

/// `command` with the conditions of a query, which are options.
fn with_conditions<'a>(alloc: Global, command: Command<'a>) -> Result<Command<'a>, AllocError>
    requires local { (out-Command command).has_globals ≡ false }
    ensures app { IfOk result (λ c. app_of c ≡ with_rule (app_of command.entry) (repeated_option (codes "WHERE") (codes "where"))) }
    ensures local { IfOk result (λ c. (out-Command c).has_globals ≡ false) }
{
    let conditions = Arg::new(alloc, "WHERE")
        .long("where")
        .action(ArgAction::Append);
    command.arg(conditions.help(
        "counts only the sales with this label in a column, as store.city:was=Bern; of the labels of one column any will do",
    ))
}

/// `command` with the option for a table.
fn with_table<'a>(alloc: Global, command: Command<'a>) -> Result<Command<'a>, AllocError>
    requires local { (out-Command command).has_globals ≡ false }
    ensures app { IfOk result (λ c. app_of c ≡ with_rule (app_of command.entry) (flag_of (codes "TABLE") (codes "table"))) }
    ensures local { IfOk result (λ c. (out-Command c).has_globals ≡ false) }
{
    let table = Arg::new(alloc, "TABLE")
        .long("table")
        .action(ArgAction::SetTrue);
    command.arg(table.help("prints a table with aligned columns and a total, and not CSV"))
}

/// `command` with the columns, the conditions and the form of a query.
fn with_slice<'a>(alloc: Global, command: Command<'a>) -> Result<Command<'a>, AllocError>
    requires local { (out-Command command).has_globals ≡ false }
    ensures app { IfOk result (λ c. app_of c ≡ with_more variants.Columns (app_of command.entry)) }
    ensures local { IfOk result (λ c. (out-Command c).has_globals ≡ false) }
{
    let query = with_columns(alloc, command)?;
    let query = with_conditions(alloc, query)?;
    with_table(alloc, query)
}

/// `command` with what it takes beside its first operands.
fn with_more<'a>(
    alloc: Global,
    command: Command<'a>,
    more: More<'a>,
) -> Result<Command<'a>, AllocError>
    requires local { (out-Command command).has_globals ≡ false }
    ensures app { IfOk result (λ c. app_of c ≡ with_more more.entry (app_of command.entry)) }
    ensures local { IfOk result (λ c. (out-Command c).has_globals ≡ false) }
{
    match more {
        More::Nothing => Ok(command),
        More::Policy => with_policy(alloc, command),
        More::Optional(name, help) => with_optional_operand(alloc, command, name, help),
        More::Columns => with_slice(alloc, command),
    }
}

/// The command that a subcommand describes: its name, its operands, and what it takes beside them.
fn subcommand_app<'a>(alloc: Global, subcommand: &Subcommand<'a>) -> Result<Command<'a>, AllocError>
    ensures app { IfOk result (λ c. app_of c ≡ subcommand_app subcommand.now) }
    ensures local { IfOk result (λ c. (out-Command c).has_globals ≡ false) }
{
    let command = operands_app(alloc, subcommand)?;
    with_more(alloc, command, subcommand.more)
}

/// The program before it has commands.
#[tactic(auto, unfolding(crate::specs::CommandLine::top_app))]
fn top_app<'a>(alloc: Global) -> Result<Command<'a>, AllocError>
    ensures app { IfOk result (λ c. app_of c ≡ top_app) }
    ensures local { IfOk result (λ c. (out-Command c).has_globals ≡ false) }
{
    let top = Command::new(alloc, "wh").bin_name("wh")?;
    let top = top.override_help(HELP).version(VERSION);
    Ok(top.no_binary_name(true).subcommand_required(true))
}

/// `program` with `subcommands` more, in that order.
fn with_commands<'a>(
    alloc: Global,
    program: Command<'a>,
    subcommands: &[Subcommand<'a>],
) -> Result<Command<'a>, AllocError>
    requires local { (out-Command program).has_globals ≡ false }
    ensures app { IfOk result (λ c.
        app_of c ≡ with_commands (app_of program.entry) (map subcommand_app subcommands.now)) }
{
    let mut program = program;
    for subcommand in subcommands {
        let command = subcommand_app(alloc, subcommand)?;
        program = program.subcommand(command)?;
    }
    Ok(program)
}

/// The whole program.
pub fn program_app<'a>(alloc: Global) -> Result<Command<'a>, AllocError>
    ensures { IfOk result (λ c. app_of c ≡ program_app) }
{
    let top = top_app(alloc)?;
    with_commands(alloc, top, SUBCOMMANDS)
}
