//! The calls that the cases of `trials` try.
use serde_json::Value;
use std::alloc::{AllocError, Global};
use trials_calls::case::text;

// The members of every case.
const COMMON: &str = "call,name,source,answer,words";

/// Each call, with the members of its cases, beside those of every case, and the members of the objects in their lists.
pub const CALLS: [(&str, &str, &str); 95] = [
    ("TargetName::new", "input", ""),
    ("encode_filename", "input", ""),
    ("TargetName::cmp", "input,other", ""),
    ("Url::safe_url_filepath", "input", ""),
    ("PathPattern::matches", "input,target", ""),
    ("PathPattern::eq", "input,other", ""),
    ("PathHashPrefix::matches", "input,target", ""),
    ("PathHashPrefix::eq", "input,other", ""),
    ("Decoded<Hex>", "input", ""),
    ("Decoded<RsaPem>", "input", ""),
    ("Decoded<EcdsaPem>", "input", ""),
    ("Decoded<EcdsaFlex>", "input", ""),
    ("Decoded<Hex>::cmp", "input,other", ""),
    ("Decoded<Hex>::from_vec", "input", ""),
    ("canonical", "input", ""),
    ("moment_text", "input", ""),
    ("value_of", "input", ""),
    ("value_of digits", "input", ""),
    ("borrowed", "input", ""),
    ("ObjectText", "form,members", "name,value,text"),
    ("Key", "key", ""),
    ("DemoVerify", "key,message,signature", ""),
    ("DemoSign", "key,message", ""),
    ("Key::key_id", "key", ""),
    ("Key::eq", "key,other", ""),
    ("verify", "key,message,signature,flips", ""),
    ("key_of", "secret", ""),
    ("sign", "secret,message", ""),
    ("Ed25519Verify", "key,message,signature", ""),
    ("Verifiers", "key,message,signature", ""),
    ("RsaVerify", "key,message,signature", ""),
    ("EcdsaVerify", "key,message,signature", ""),
    ("StandardVerify", "key,message,signature", ""),
    ("Ed25519Sign", "secret,message,key", ""),
    (
        "Files",
        "steps",
        "op,path,to,answer,words,follow,text,from,buffer",
    ),
    (
        "MemoryFiles::calls",
        "steps",
        "op,path,to,answer,words,follow,text,from,buffer",
    ),
    ("Error", "", ""),
    ("schema::Error", "", ""),
    ("Signed::read", "kind,document", ""),
    ("Target::from_path of the system", "path", ""),
    ("Root::verify_role", "kind,root,document", ""),
    ("head", "kind,document", ""),
    ("new", "kind,spec_version,version,expires", ""),
    ("RoleType::from_str", "names", ""),
    ("Root::keys", "root,role", ""),
    ("Root::clone", "root,other", ""),
    ("Targets::read", "document,form", ""),
    ("Delegations::verify_role", "targets,role,document", ""),
    ("Targets::named", "role,document", ""),
    ("read", "kind,document", ""),
    ("Delegations::target_is_delegated", "targets,target", ""),
    ("DelegatedRole::keys", "targets", ""),
    ("tree", "documents,steps", ""),
    ("chain", "document,times", ""),
    ("Nodes::search", "document,times", ""),
    ("Target::from_path", "path,content,times", ""),
    ("repository", "count,consistent,file,kind,tells", ""),
    ("fetch_max_size", "files,piece,url,limit", ""),
    ("fetch_sha256", "files,piece,url,limit,sha256", ""),
    ("fetch_digests", "files,piece,url,limit,sha256,sha512", ""),
    ("MemoryTransport", "files,piece,url", ""),
    ("fetch_whole", "files,piece,url,limit,sha256,sha512", ""),
    ("FilesystemTransport", "url", ""),
    ("TransportError", "url,cause", ""),
    (
        "RetryCore",
        "events,tries,initial_backoff,max_backoff",
        "event,status,len,accepts_ranges",
    ),
    (
        "fetch over HTTP",
        "path,answers,pauses,defaults,host,tries,initial_backoff,max_backoff,doubles,timeout,url,gateway",
        "head,body,times,pause,waits",
    ),
    (
        "vault",
        "root,read,steps,stuck,store,fails after,lacks memory after",
        "step,now,text,reopened,unsafe,name,listed,first",
    ),
    ("ExpirationEnforcement", "refused", ""),
    ("DirStore", "steps,folder", "step,name,text,path,now"),
    ("SystemClock::now", "now", ""),
    ("Limits::default", "", ""),
    (
        "update",
        "trusted,max_root_updates,answers,unsafe,now,files",
        "kind,text",
    ),
    ("Load::core", "", ""),
    (
        "load",
        "loads,store,stuck,root,base,now,files,documents,find,scheme",
        "now,base,root,files,unsafe,max_root_updates,max_timestamp_size,max_targets_size,keeps the vault,fails after,lacks memory after,ends after,spoils after",
    ),
    (
        "update over files",
        "trusted,max_root_updates,answers,unsafe,now,files",
        "",
    ),
    (
        "Core::counts",
        "trusted,max_root_updates,answers,unsafe,now,files",
        "",
    ),
    (
        "Load::poll",
        "root,now,files,len,polls,max_timestamp_size",
        "pieces,piece,endless",
    ),
    ("run_lives", "trusted,files,lives", "loads,turns"),
    ("Load::poll in pieces", "root,now,files,lengths", ""),
    ("IntoVec::into_vec", "files,len,polls,url", ""),
    ("World::turn and a stop", "root,now,files,older", ""),
    (
        "TargetsEditor",
        "role,steps,signers,targets,root,parent",
        "op,name,version,content,path,keys,key,role,signers,pattern,threshold,recursive,limits,served,at,url,max_targets_size",
    ),
    (
        "RepositoryEditor",
        "files,steps,signers,consistent,opens,extras,again",
        "op,name,version,content,path,signers,pattern,threshold,document,extra,count,role,steps,served,url,keys,limits",
    ),
    (
        "TargetFiles",
        "op,folders,files,links,targets,sha512,consistent,input,outdir,exists,target,files fail after",
        "",
    ),
    (
        "World",
        "trusted,loads,files,turns,whole,unsafe,max_timestamp_size",
        "load,kind,now,file",
    ),
    (
        "SharedStore",
        "trusted,files,older,now,manner,times,steps",
        "op,clone,file,listed",
    ),
    ("write_roles", "folders,files,links,names,outdir", ""),
    ("tough", "files,steps", "step,words,path,text,blanks"),
    (
        "save_target",
        "root,metadata,targets,now,outdir,targets_outdir,root_chain,subset,files,folders,max_timestamp_size,max_targets_size,piece,target,prefixed,links,unsafe,scheme,files fail after",
        "",
    ),
    (
        "cache_metadata",
        "root,metadata,targets,now,outdir,targets_outdir,root_chain,subset,files,folders,max_timestamp_size,max_targets_size,piece,target,prefixed,links,unsafe,scheme",
        "",
    ),
    (
        "cache",
        "root,metadata,targets,now,outdir,targets_outdir,root_chain,subset,files,folders,max_timestamp_size,max_targets_size,piece,target,prefixed,links,unsafe,scheme",
        "",
    ),
    ("Repository::all_targets", "root,metadata,targets,now", ""),
    (
        "Repository::delegated_role",
        "root,metadata,targets,now,role",
        "",
    ),
    (
        "Repository::read_target",
        "root,metadata,targets,now,target",
        "",
    ),
    (
        "Repository::receipts",
        "root,metadata,targets,now,target",
        "",
    ),
];

// Whether a list of members has this one.
fn has(members: &str, name: &str) -> bool {
    for member in members.split(',') {
        if member == name {
            return true;
        }
    }
    false
}

/// The number of a call in the table.
pub fn place_of(call: &str) -> Option<usize> {
    for (place, (name, _, _)) in CALLS.iter().enumerate() {
        if *name == call {
            return Some(place);
        }
    }
    None
}

// The members of a call's cases, and those of the objects in their lists.
fn members_of(call: &str) -> Option<(&'static str, &'static str)> {
    for (name, members, inner) in CALLS.iter() {
        if *name == call {
            return Some((*members, *inner));
        }
    }
    None
}

// The first member of the objects in a list that isn't among these.
fn unknown_in<'a>(list: &'a Value, members: &str) -> Option<&'a str> {
    for item in list.as_array()? {
        if let Some(object) = item.as_object() {
            for (name, _) in object {
                if !has(members, name.as_str()) {
                    return Some(name.as_str());
                }
            }
        }
    }
    None
}

// The first member of a case that isn't among these, or of the objects in its lists that isn't among those.
fn unknown<'a>(case: &'a Value, members: &str, inner: &str) -> Option<&'a str> {
    for (name, value) in case.as_object()? {
        if !has(COMMON, name.as_str()) && !has(members, name.as_str()) {
            return Some(name.as_str());
        }
        if let Some(other) = unknown_in(value, inner) {
            return Some(other);
        }
    }
    None
}

/// What is wrong with a case: its call, a member that its call doesn't know, that nothing is wanted of the answer, or that this has no source.
pub fn fault_of(alloc: Global, case: &Value) -> Result<Option<String>, AllocError> {
    let Some((members, inner)) = members_of(text(case, "call")) else {
        return Ok(Some(String::from_str(alloc, "no such call")?));
    };
    if let Some(name) = unknown(case, members, inner) {
        return Ok(Some(format!(in alloc; "no member {name}")?));
    }
    if case.get("answer").is_none() && case.get("words").is_none() {
        return Ok(Some(String::from_str(alloc, "no answer is wanted")?));
    }
    if text(case, "source").is_empty() {
        return Ok(Some(String::from_str(alloc, "no source of its answer")?));
    }
    Ok(None)
}
