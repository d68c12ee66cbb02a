//! The text, in parts.

ghost use Rattle.std.specs.Prelude.{◌≡◌, ◌++◌, ◌≤◌, length, IfOk, OnOk};
ghost use Rattle.std.specs.Fmt.{decimal};
ghost use Rattle.ac_file_server.specs.ServerText.{client0, client1, client2, lines, server_text, load_text};

use ac_base::{Bytes, List, NoMemory, decimal};
use std::alloc::Global;

// The files, the cores and the channels.
const DECLARED: &str = r#"file one("one.dat");
file two("two.dat");
core server(serve);
core c0(client0);
core c1(client1);
core c2(client2);
channel q0(c0, server, 4);
channel q1(c1, server, 4);
channel q2(c2, server, 4);
channel r0(server, c0, 4);
channel r1(server, c1, 4);
channel r2(server, c2, 4);
"#;

// What is done for a request.
const REQUESTS: &str = r#"async int put(int at, int v) {
  int b[1];
  int x;
  int y;
  b[0] = v;
  do {
    async x = Write(one, at, 1, b);
    async y = Write(two, at, 1, b);
  } finish;
  if (x == 1 && y == 1) return 0;
  return FAULT;
}
async int get(int at) {
  int b[1];
  int d[1];
  int v = FAULT;
  pair: do {
    async { int n = Read(one, at, 1, b); if (n == 1) { v = b[0]; cancel pair; } }
    async { int n = Read(two, at, 1, d); if (n == 1) { v = d[0]; cancel pair; } }
  } finish;
  return v;
}
async int handle(int m) {
  if (m % 2 == 1) m = put(m / 512, m / 2 % 256);
  else m = get(m / 512);
  return m;
}
"#;

// A thread for each client.
const SERVING: &str = r#"async void serve0() {
  int m;
  int r;
  Recv(q0, &m);
  while (m >= 0) { r = handle(m); Send(r0, r); Recv(q0, &m); }
}
async void serve1() {
  int m;
  int r;
  Recv(q1, &m);
  while (m >= 0) { r = handle(m); Send(r1, r); Recv(q1, &m); }
}
async void serve2() {
  int m;
  int r;
  Recv(q2, &m);
  while (m >= 0) { r = handle(m); Send(r2, r); Recv(q2, &m); }
}
async void serve() {
  do { async serve0(); async serve1(); async serve2(); } finish;
}
"#;

// The first client, up to the number of its turns, and from there on.
const CLIENT0_HEAD: &str = r#"async void client0() {
  int j;
  int s;
  int v;
  for (j = 0; j < "#;

const CLIENT0_REST: &str = r#"; j = j + 1) {
    Send(q0, j * 3 * 512 + j * 7 % 256 * 2 + 1);
    Recv(r0, &v);
    Send(q0, j * 3 * 512);
    Recv(r0, &v);
    s = s + v;
  }
  Send(q0, -1);
  printf("%d\n", s);
}
"#;

// The second client.
const CLIENT1_HEAD: &str = r#"async void client1() {
  int j;
  int s;
  int v;
  for (j = 0; j < "#;

const CLIENT1_REST: &str = r#"; j = j + 1) {
    Send(q1, (j * 3 + 1) * 512 + (j * 7 + 1) % 256 * 2 + 1);
    Recv(r1, &v);
    Send(q1, (j * 3 + 1) * 512);
    Recv(r1, &v);
    s = s + v;
  }
  Send(q1, -1);
  printf("%d\n", s);
}
"#;

// The third client.
const CLIENT2_HEAD: &str = r#"async void client2() {
  int j;
  int s;
  int v;
  for (j = 0; j < "#;

const CLIENT2_REST: &str = r#"; j = j + 1) {
    Send(q2, (j * 3 + 2) * 512 + (j * 7 + 2) % 256 * 2 + 1);
    Recv(r2, &v);
    Send(q2, (j * 3 + 2) * 512);
    Recv(r2, &v);
    s = s + v;
  }
  Send(q2, -1);
  printf("%d\n", s);
}
"#;
// Adds a text with a number in its place.
fn add_around(
    alloc: Global,
    text: &mut Vec<u8>,
    before: &str,
    number: u32,
    after: &str,
) -> Result<(), NoMemory>
    ensures { OnOk result (text.new.items ≡ text.old.items ++ (before.now ++ (decimal number ++ after.now))) }
{
    let digits = decimal(alloc, i64::from(number))?;
    text.extend_from_slice(before.as_bytes())?;
    text.extend_from_slice(digits.as_slice())?;
    text.extend_from_slice(after.as_bytes())?;
    Ok(())
}

fn add(text: &mut Vec<u8>, part: &str) -> Result<(), NoMemory>
    ensures { OnOk result (text.new.items ≡ text.old.items ++ part.now) }
{
    text.extend_from_slice(part.as_bytes())?;
    Ok(())
}

// Adds all but the clients.
fn add_server(text: &mut Vec<u8>) -> Result<(), NoMemory>
    ensures { OnOk result (text.new.items ≡ text.old.items ++ server_text) }
{
    add(text, DECLARED)?;
    add(text, REQUESTS)?;
    add(text, SERVING)?;
    Ok(())
}

fn add_first(alloc: Global, text: &mut Vec<u8>, turns: u32) -> Result<(), NoMemory>
    ensures { OnOk result (text.new.items ≡ text.old.items ++ lines (client0 turns)) }
{
    add_around(alloc, text, CLIENT0_HEAD, turns, CLIENT0_REST)?;
    Ok(())
}

fn add_second(alloc: Global, text: &mut Vec<u8>, turns: u32) -> Result<(), NoMemory>
    ensures { OnOk result (text.new.items ≡ text.old.items ++ lines (client1 turns)) }
{
    add_around(alloc, text, CLIENT1_HEAD, turns, CLIENT1_REST)?;
    Ok(())
}

fn add_third(alloc: Global, text: &mut Vec<u8>, turns: u32) -> Result<(), NoMemory>
    ensures { OnOk result (text.new.items ≡ text.old.items ++ lines (client2 turns)) }
{
    add_around(alloc, text, CLIENT2_HEAD, turns, CLIENT2_REST)?;
    Ok(())
}

/// The text of the file server, each of whose clients takes so many turns.
///
/// Conditions: 1 to 500 turns, so that what the clients ask for has room in their files and each core
/// has steps enough.
pub fn load_text(alloc: Global, turns: u32) -> Result<Bytes, NoMemory>
    requires some { 1 ≤ turns }
    requires few { turns ≤ 500 }
    ensures same { IfOk result (λ text. text ≡ load_text turns) }
    ensures short { IfOk result (λ text. length text ≤ 2131) }
{
    let mut text = Vec::new(alloc);
    add_server(&mut text)?;
    add_first(alloc, &mut text, turns)?;
    add_second(alloc, &mut text, turns)?;
    add_third(alloc, &mut text, turns)?;
    Ok(List::from_vec(text))
}
