//! What conditions choose, and what templates come to that are repeated.
use crate::cases::{Case, all_told};
use crate::plans::Evaluated;
use std::alloc::AllocError;

const CHOSEN: &[Case] = &[
    ("{'if':['on','a','b']}", "'a'"),
    ("{'if':['off','a','b']}", "'b'"),
    ("{'if':['off','a']}", "null"),
    ("{'if':[true,'a',{'digest':['md4','']}]}", "'a'"),
    ("{'if':[false,{'digest':['md4','']},'b']}", "'b'"),
    ("{'if':[true,{'digest':['md4','']}]}", "F01 ['if',1]"),
    ("{'if':[false,0,{'digest':['md4','']}]}", "F01 ['if',2]"),
    ("{'if':['none','a','b']}", "F01 []"),
    ("{'if':[1,'a','b']}", "F01 []"),
    ("{'if':[{'not':'on'},'a','b']}", "'b'"),
    ("{'if':[{'not':'none'},'a','b']}", "F01 ['if',0]"),
    ("{'if':[{'and':['on','off']},'a','b']}", "'b'"),
    ("{'if':[{'or':['off','on']},'a','b']}", "'a'"),
    (
        "{'if':[{'and':['off',{'get_param':'p'}]},'a','b']}",
        "F01 ['if',0,'and',1]",
    ),
    (
        "{'if':[{'or':['on',{'get_param':'p'}]},'a','b']}",
        "F01 ['if',0,'or',1]",
    ),
    ("{'if':[{'get_param':'yes'},'a','b']}", "'a'"),
    ("{'if':[{'equals':[{'get_param':'n'},5]},'a','b']}", "'a'"),
    ("{'if':[{'equals':['5',5]},'a','b']}", "'b'"),
    (
        "{'if':[{'contains':['x',{'get_param':'p'}]},'a','b']}",
        "'a'",
    ),
];

#[test]
fn conditions_choose(rt: HostRuntime) -> Result<(), AllocError> {
    all_told(&rt, &Evaluated, CHOSEN)
}

const REPEATED: &[Case] = &[
    ("{'repeat':{'template':'a','for_each':{}}}", "['a']"),
    ("{'repeat':{'template':'a','for_each':{'b':[]}}}", "[]"),
    (
        "{'repeat':{'template':'%x%','for_each':{'%x%':[1,{'a':2}]}}}",
        "[1,{'a':2}]",
    ),
    (
        "{'repeat':{'template':{'%x%':'%x%'},'for_each':{'%x%':[1,{'a':2}]}}}",
        "[{'1':1},{'{\\'a\\':2}':{'a':2}}]",
    ),
    (
        "{'repeat':{'template':'aab','for_each':{'a':['b'],'b':['a']}}}",
        "['bba']",
    ),
    (
        "{'repeat':{'template':{'a':1,'b':2},'for_each':{'a':['b']}}}",
        "F05 []",
    ),
    ("{'repeat':{'template':0,'for_each':{'a':null}}}", "F01 []"),
    (
        "{'repeat':{'template':0,'for_each':{'a':[],'':[]}}}",
        "F03 []",
    ),
    ("{'repeat':{'template':0,'for_each':{'':null}}}", "F01 []"),
    (
        "{'repeat':{'template':0,'for_each':{'get_param':'j'}}}",
        "[0,0]",
    ),
    (
        "{'repeat':{'template':0,'for_each':{'get_param':'p'}}}",
        "F01 []",
    ),
    (
        "{'repeat':{'template':0,'for_each':{'x':{'get_param':'list'}}}}",
        "[0,0]",
    ),
    (
        "{'repeat':{'template':0,'for_each':{},'permutations':true}}",
        "F01 []",
    ),
    (
        "{'repeat':{'template':{'get_param':'%x%'},'for_each':{'%x%':['p','n']}}}",
        "['x',5]",
    ),
    (
        "{'repeat':{'template':{'a':[{'get_param':'%x%'}]},'for_each':{'%x%':['q']}}}",
        "F01 ['repeat','template','a',0]",
    ),
    (
        "{'repeat':{'template':{'%x%':[{'get_param':'q'}]},'for_each':{'%x%':['y']}}}",
        "F01 ['repeat','template','%x%',0]",
    ),
    (
        "{'repeat':{'template':[0,'x'],'for_each':{'x':[{'get_param':'call'}]}}}",
        "[[0,'x']]",
    ),
    (
        "{'repeat':{'template':[0,'x'],'for_each':{'x':[{'get_param':'off'}]}}}",
        "F01 ['repeat','template',1]",
    ),
    (
        "{'repeat':{'template':[0,'x'],'for_each':{'x':[{'get_param':'gone'}]}}}",
        "F01 ['repeat','template',1]",
    ),
    (
        "{'repeat':{'template':[0,'x'],'for_each':{'x':[{'get_param':'deep'}]}}}",
        "F01 ['repeat','template',1]",
    ),
    (
        "{'repeat':{'template':{'get_resource':'x'},'for_each':{'x':['a','b']}}}",
        "['id-a',null]",
    ),
    (
        "{'repeat':{'template':{'if':['x',1,2]},'for_each':{'x':['on','off',true]}}}",
        "[1,2,1]",
    ),
    (
        "{'repeat':{'template':{'repeat':{'template':{'k-x':'y'},'for_each':{'k':['x'],'y':['x']}}},\
        'for_each':{'x':['z']}}}",
        "[[{'z-z':'z'}]]",
    ),
    (
        "{'repeat':{'template':{'repeat':{'template':{'k':{'get_param':'y'}},'for_each':{'y':['none'],'k':[1]}}},\
        'for_each':{'x':['z']}}}",
        "F01 ['repeat','template','repeat','template','k']",
    ),
];

#[test]
fn templates_are_repeated(rt: HostRuntime) -> Result<(), AllocError> {
    all_told(&rt, &Evaluated, REPEATED)
}
