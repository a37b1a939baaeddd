//! What the commands of a script say, as text.
use super::byte_sink::ByteSink;
use std::alloc::Global;
use tsdb_base::{Aggregate, DataType, Encoding, Range, Space};
use tsdb_model::{Command, Item, Literal, Row, Schema};
use tsdb_script::{Numbered, read_script};

fn type_name(data_type: DataType) -> &'static [u8] {
    match data_type {
        DataType::Boolean => b"boolean",
        DataType::Int32 => b"int32",
        DataType::Int64 => b"int64",
        DataType::Text => b"text",
    }
}

fn encoding_name(encoding: Encoding) -> &'static [u8] {
    match encoding {
        Encoding::Plain => b"plain",
        Encoding::Rle => b"rle",
        Encoding::Ts2diff => b"ts_2diff",
        Encoding::Dictionary => b"dictionary",
    }
}

fn aggregate_name(aggregate: Aggregate) -> &'static [u8] {
    match aggregate {
        Aggregate::Count => b"count",
        Aggregate::FirstValue => b"first_value",
        Aggregate::LastValue => b"last_value",
        Aggregate::MinValue => b"min_value",
        Aggregate::MaxValue => b"max_value",
        Aggregate::MinTime => b"min_time",
        Aggregate::MaxTime => b"max_time",
        Aggregate::Sum => b"sum",
    }
}

fn write_literal(literal: &Literal, said: &mut ByteSink) {
    match literal {
        Literal::Bool(true) => said.put_word(b"true"),
        Literal::Bool(false) => said.put_word(b"false"),
        Literal::Int(number) => said.put_number(*number),
        Literal::Text(text) => {
            said.put_word(b"'");
            said.put(text.bytes());
        }
    }
}

fn write_range(range: &Range, said: &mut ByteSink) {
    said.put_number(range.from);
    said.put_number(range.to);
}

fn write_schema(schema: &Schema, said: &mut ByteSink) {
    said.put_word(b"create");
    said.put_word(schema.path.bytes());
    said.put_word(type_name(schema.data_type));
    said.put_word(encoding_name(schema.encoding));
}

fn write_row(row: &Row, said: &mut ByteSink) {
    for cell in row.cells.items() {
        said.put_word(cell.measurement.bytes());
    }
    said.put_number(row.time);
    for cell in row.cells.items() {
        write_literal(&cell.value, said);
    }
}

fn write_items(items: &[Item], said: &mut ByteSink) {
    for item in items {
        if let Some(aggregate) = item.aggregate {
            said.put_word(aggregate_name(aggregate));
        }
        said.put_word(item.measurement.bytes());
    }
}

/// Puts the text of a command: its first words, its paths, names and values, and the ends of its range.
fn write_command(command: &Command, said: &mut ByteSink) {
    match command {
        Command::Create(schema) => write_schema(schema, said),
        Command::Insert { device, row } => {
            said.put_word(b"insert");
            said.put_word(device.bytes());
            write_row(row, said);
        }
        Command::Delete { series, range } => {
            said.put_word(b"delete");
            said.put_word(series.bytes());
            write_range(range, said);
        }
        Command::Select {
            device,
            items,
            range,
        } => {
            said.put_word(b"select");
            write_items(items.items(), said);
            said.put_word(device.bytes());
            write_range(range, said);
        }
        Command::Flush => said.put_word(b"flush"),
        Command::CompactInner(Space::Sequence) => said.put_word(b"compact inner sequence"),
        Command::CompactInner(Space::Unsequence) => said.put_word(b"compact inner unsequence"),
        Command::CompactCross => said.put_word(b"compact cross"),
        Command::ShowFiles => said.put_word(b"show files"),
    }
}

/// The commands of a script, a line of text for each.
fn text_of(alloc: Global, script: &[Numbered]) -> ByteSink {
    let mut said = ByteSink::new(alloc);
    for numbered in script {
        said.put_digits(i64::from(numbered.session));
        write_command(&numbered.command, &mut said);
        said.put(b"\n");
    }
    said
}

/// Scripts, and what their commands say.
const SAID: [(&[u8], &[u8]); 12] = [
    (
        b"12 CREATE timeseries root.g.d.Ts WITH datatype=int32, encoding=ts_2diff\n",
        b"12 create root.g.d.Ts int32 ts_2diff\n",
    ),
    (
        b"\
1 create timeseries root.g.b with datatype=BOOLEAN,encoding=rle
1 create timeseries root.g.i with datatype=Int64,encoding=PLAIN
1 create timeseries root.g.t with datatype=TEXT,encoding=Dictionary",
        b"\
1 create root.g.b boolean rle
1 create root.g.i int64 plain
1 create root.g.t text dictionary
",
    ),
    (
        b"999 insert into root.g.d(timestamp,s,t,u) values(-5,TRUE,'it''s',+07);",
        b"999 insert root.g.d s t u -5 true 'it's 7\n",
    ),
    // a doubled quote stands for one
    (
        b"1 insert into root.g.d(time,s,t,u) values(1,'it''s',\"''\",'''')",
        b"1 insert root.g.d s t u 1 'it's ''' ''\n",
    ),
    // an empty range
    (
        b"12 delete from root.g.d.s where time>5 and time<5",
        b"12 delete root.g.d.s 9223372036854775807 -9223372036854775808\n",
    ),
    // no time is behind the last one
    (
        b"1 delete from root.g.s where time>9223372036854775807 and time<=4",
        b"1 delete root.g.s 9223372036854775807 -9223372036854775808\n",
    ),
    (
        b"1 select first_value(s),Last_Value(s),MIN_VALUE(s),min_time(s),max_time(s) from root.g where time>+5",
        b"1 select first_value s last_value s min_value s min_time s max_time s root.g 6 9223372036854775807\n",
    ),
    (
        b"1 select Sum(s),sum(sum) from root.g where time<=5",
        b"1 select sum s sum sum root.g -9223372036854775808 5\n",
    ),
    (
        b"3 select max_value(s),COUNT(t) from root.g where time>=-1 and time<=9",
        b"3 select max_value s count t root.g -1 9\n",
    ),
    (
        b"1 select b,a from root.d where time<=5",
        b"1 select b a root.d -9223372036854775808 5\n",
    ),
    (
        b"1 flush\n2 compact inner sequence\n3 Compact inner UNSEQUENCE;\n4 compact cross\n5 show files",
        b"1 flush\n2 compact inner sequence\n3 compact inner unsequence\n4 compact cross\n5 show files\n",
    ),
    // in the order of the lines
    (
        b"\
# a comment
12 delete from root.g.d.s

3 select s from root.g where time=7
12 delete from root.g.d.Ts where time=-7
",
        b"\
12 delete root.g.d.s -9223372036854775808 9223372036854775807
3 select s root.g 7 7
12 delete root.g.d.Ts -7 -7
",
    ),
];

fn says(alloc: Global, script: &[u8], wanted: &[u8]) -> bool {
    match read_script(alloc, script) {
        Ok(script) => text_of(alloc, script.as_slice()).bytes() == Some(wanted),
        Err(_) => false,
    }
}

#[test]
fn what_commands_say(rt: HostRuntime) {
    for (case, (script, wanted)) in SAID.iter().enumerate() {
        assert!(rt; says(rt.alloc(), script, wanted), "{case}");
    }
}
